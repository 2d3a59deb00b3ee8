//! The records of some transactions on related paths.
ghost use Rattle.std.specs.Prelude.{◌≡◌, ℕ, ◌&&◌, ◌++◌, List, false, nat_eq, map, filter_map, option_map, slice_get, IfOk, OnOk};
ghost use Rattle.std.specs.Ordering.{nat_cmp};
ghost use Rattle.std.specs.BTreeMap.{get};
ghost use Rattle.std.specs.BTreeSet.{contains, IsOrdered};
ghost use Rattle.txn_types.specs.Tablet.{Intent};
ghost use Rattle.intent_records.specs.Holds.{Holds, own, provisional_of};
ghost use Rattle.intent_records.specs.Search.{between, near};
ghost use Rattle.intent_records.specs.Related.{related_writes, placed, Has, Adds};

use crate::bounds::related_ranges;
use crate::intents::Intents;
use crate::path_range::PathRange;
use crate::record_key::RecordKey;
use doc_path::Path;
use docdb_base::{Memory, TryCopy};
use std::alloc::Global;
use std::collections::{BTreeMap, BTreeSet};
use txn_types::{Paths, Provisional, TxnId};

impl Intents {
    /// Copies of the writes of these transactions on paths related to one of `paths`: by rising id, and those of one
    /// transaction in the order in which they were added. It looks at the records on these paths, above and beneath them.
    pub fn related_of(
        &self,
        paths: &Paths,
        txns: &BTreeSet<TxnId>,
    ) -> Result<Vec<Provisional>, Memory>
        ensures { (ps : List Intent) → Holds self.now ps → IfOk result (λ list. list.items ≡ map provisional_of (related_writes paths.now txns.now.keys ps)) }
    {
        let mut places = no_places(self.alloc, txns)?;
        for path in paths.items() {
            self.find_places(path, &mut places)?;
        }
        let mut list = Vec::new(self.alloc);
        for txn in txns {
            if let Some(positions) = places.get(txn) {
                self.push_writes(*txn, positions, &mut list)?;
            }
        }
        Ok(list)
    }

    // Adds the positions of the records on paths related to `path`: those that it lies beneath, itself, and those that
    // lie beneath it.
    fn find_places(
        &self,
        path: &Path,
        places: &mut BTreeMap<TxnId, BTreeSet<usize>>,
    ) -> Result<(), Memory>
        ensures { OnOk result (Adds (λ x i. placed (near path.now) x i self.now.records.entries) (get nat_cmp places.old) (get nat_cmp places.new)) }
    {
        for range in &related_ranges(self.alloc, path)? {
            self.find_places_between(range, places)?;
        }
        Ok(())
    }

    // Adds the positions of the records on paths in a range.
    fn find_places_between(
        &self,
        range: &PathRange,
        places: &mut BTreeMap<TxnId, BTreeSet<usize>>,
    ) -> Result<(), Memory>
        ensures { OnOk result (Adds (λ x i. placed (between range.now.first range.now.end) x i self.now.records.entries) (get nat_cmp places.old) (get nat_cmp places.new)) }
    {
        let first = RecordKey::first_at(self.alloc, &range.first)?;
        let end = RecordKey::first_at(self.alloc, &range.end)?;
        for (key, _) in self.records.range(&first..&end) {
            add_place(places, key)?;
        }
        Ok(())
    }

    // Adds copies of the writes of a transaction at these positions.
    fn push_writes(
        &self,
        txn: TxnId,
        positions: &BTreeSet<usize>,
        list: &mut Vec<Provisional>,
    ) -> Result<(), Memory>
        ensures pushed { (ps : List Intent) → Holds self.now ps → OnOk result (list.new.items ≡ list.old.items ++ map provisional_of (filter_map (slice_get (own txn ps)) positions.now.keys)) }
        ensures ordered { IsOrdered nat_cmp positions.now }
    {
        for position in positions {
            if let Some(write) = self.write_at(txn, *position)? {
                list.push(write)?;
            }
        }
        Ok(())
    }

    // A copy of the write of a transaction at a position, where there is one.
    fn write_at(&self, txn: TxnId, position: usize) -> Result<Option<Provisional>, Memory>
        ensures { (ps : List Intent) → Holds self.now ps → IfOk result (λ write. write ≡ option_map provisional_of (slice_get (own txn ps) position)) }
    {
        let Some(paths) = self.index.get(&txn) else {
            return Ok(None);
        };
        let Some(path) = paths.items().get(position) else {
            return Ok(None);
        };
        let key = RecordKey {
            path: path.try_copy(self.alloc)?,
            txn,
            position,
        };
        let Some(record) = self.records.get(&key) else {
            return Ok(None);
        };
        let op = record.op.try_copy(self.alloc)?;
        Ok(Some(Provisional {
            path: key.path,
            txn,
            wrote: record.wrote,
            number: record.number,
            op,
        }))
    }
}

// No positions yet for each of these transactions.
fn no_places(
    alloc: Global,
    txns: &BTreeSet<TxnId>,
) -> Result<BTreeMap<TxnId, BTreeSet<usize>>, Memory>
    ensures { IfOk result (λ places. Has (contains nat_cmp txns.now) (λ x i. false) (get nat_cmp places)) }
{
    let mut places = BTreeMap::new(alloc);
    for txn in txns {
        places.insert(*txn, BTreeSet::new(alloc))?;
    }
    Ok(places)
}

// Adds the position of a record to those of its transaction, where that is asked for.
fn add_place(places: &mut BTreeMap<TxnId, BTreeSet<usize>>, key: &RecordKey) -> Result<(), Memory>
    ensures { OnOk result (Adds (λ x i. nat_eq key.now.txn x && nat_eq key.now.position i) (get nat_cmp places.old) (get nat_cmp places.new)) }
{
    if let Some(positions) = places.get_mut(&key.txn) {
        positions.insert(key.position)?;
    }
    Ok(())
}
