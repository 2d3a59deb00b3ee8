//! The provisional records of a tablet.
ghost use Rattle.std.specs.Prelude.{◌≡◌, ℕ, ◌∷◌, ◌++◌, [], List, not, map, filter, length, is_some, option_copied, IfOk, OnOk, OnErr};
ghost use Rattle.std.specs.Ordering.{nat_cmp};
ghost use Rattle.std.specs.BTreeMap.{get};
ghost use Rattle.std.specs.BTreeSet.{IsOrdered};
ghost use Rattle.txn_types.specs.Tablet.{Intent, is_of, founds as founds_in, others_on, has_any};
ghost use Rattle.intent_records.specs.Holds.{Holds, own, first_meta, provisional_of};
ghost use Rattle.intent_records.specs.Search.{others_until, others_meeting};
ghost use Rattle.intent_records.specs.Steps.{told, paths_or_none, Lists, ListsNothing};

use crate::asked::Asked;
use crate::primary_record::PrimaryRecord;
use crate::record_key::RecordKey;
use conflict_matrix::laws::writes_meet_where_related;
use doc_path::Path;
use docdb_base::{Memory, TryCopy};
use hybrid_time::HybridTime;
use std::alloc::{AllocError, Global};
use std::collections::{BTreeMap, BTreeSet};
use txn_types::{Found, Founds, Meta, Op, Paths, Provisional, TxnId};

/// The provisional records of a tablet. Contracts see them by the lists of provisional writes that they stand for, in the
/// order of adding: of the metadata only that of the first write of each transaction counts.
#[derive(Debug, Drop)]
pub struct Intents {
    pub(crate) alloc: Global,
    /// The metadata of each transaction: that of the first of its writes that are provisional.
    pub(crate) metas: BTreeMap<TxnId, Meta>,
    /// The primary records.
    pub(crate) records: BTreeMap<RecordKey, PrimaryRecord>,
    /// From each transaction to its records: their paths, in the order of adding.
    pub(crate) index: BTreeMap<TxnId, Paths>,
}

impl Intents {
    /// No records. It takes no memory.
    pub fn new(alloc: Global) -> Intents
        ensures { Holds result [] }
    {
        Intents {
            alloc,
            metas: BTreeMap::new(alloc),
            records: BTreeMap::new(alloc),
            index: BTreeMap::new(alloc),
        }
    }

    /// Adds the records of a write that became provisional at `wrote`, and is the `number`-th of its transaction. If
    /// memory runs out, the records are as before.
    pub fn add(
        &mut self,
        meta: &Meta,
        number: u32,
        path: &Path,
        op: &Op,
        wrote: HybridTime,
    ) -> Result<(), Memory>
        ensures ok { (ps : List Intent) → Holds self.old ps → OnOk result (Holds self.new (ps ++ (record { meta = meta.now; number = number; path = path.now; op = op.now; wrote = wrote }) ∷ [])) }
        ensures memory { (ps : List Intent) → Holds self.old ps → OnErr result (Holds self.new ps) }
    {
        // The search finds a record by the parts of its path, and a path has some.
        let parts = path.parts();
        prove!(1 <= parts);
        let record = PrimaryRecord {
            number,
            op: op.try_copy(self.alloc)?,
            wrote,
        };
        let key = self.next_key(meta.txn, path)?;
        let key_again = self.next_key(meta.txn, path)?;
        let path = path.try_copy(self.alloc)?;
        self.records.insert(key, record)?;
        if let Err(memory) = list(self.alloc, &mut self.metas, &mut self.index, meta, path) {
            self.records.remove(&key_again);
            return Err(memory);
        }
        Ok(())
    }

    // The key of the next record of a transaction.
    fn next_key(&self, txn: TxnId, path: &Path) -> Result<RecordKey, Memory>
        ensures { IfOk result (λ key. key ≡ (record { path = path.now; txn = txn; position = length (paths_or_none (get nat_cmp self.now.index txn)) })) }
    {
        let position = match self.index.get(&txn) {
            Some(paths) => paths.items().len(),
            None => 0,
        };
        let path = path.try_copy(self.alloc)?;
        Ok(RecordKey {
            path,
            txn,
            position,
        })
    }

    /// Takes the records of a transaction out, and gives its writes in the order in which they were added. If memory
    /// runs out, the records are as before.
    pub fn take_of(&mut self, txn: TxnId) -> Result<Vec<Provisional>, Memory>
        ensures taken { (ps : List Intent) → Holds self.old ps → IfOk result (λ list. list.items ≡ map provisional_of (own txn ps)) }
        ensures ok { (ps : List Intent) → Holds self.old ps → OnOk result (Holds self.new (filter (λ (p : Intent). not (is_of txn p)) ps)) }
        ensures memory { (ps : List Intent) → Holds self.old ps → OnErr result (Holds self.new ps) }
    {
        let taken = self.records_of(txn)?;
        self.drop_of(txn);
        Ok(taken)
    }

    /// Copies of the writes of a transaction, in the order in which they were added.
    pub fn records_of(&self, txn: TxnId) -> Result<Vec<Provisional>, Memory>
        ensures { (ps : List Intent) → Holds self.now ps → IfOk result (λ list. list.items ≡ map provisional_of (own txn ps)) }
    {
        let mut list = Vec::new(self.alloc);
        if let Some(paths) = self.index.get(&txn) {
            for (position, path) in paths.items().iter().enumerate() {
                let path = path.try_copy(self.alloc)?;
                let key = RecordKey {
                    path,
                    txn,
                    position,
                };
                if let Some(record) = self.records.get(&key) {
                    list.push(Provisional {
                        path: key.path,
                        txn,
                        wrote: record.wrote,
                        number: record.number,
                        op: record.op.try_copy(self.alloc)?,
                    })?;
                }
            }
        }
        Ok(list)
    }

    /// Takes the records of a transaction out. It takes no memory.
    pub fn drop_of(&mut self, txn: TxnId)
        ensures { (ps : List Intent) → Holds self.old ps → Holds self.new (filter (λ (p : Intent). not (is_of txn p)) ps) }
    {
        self.metas.remove(&txn);
        let Some(paths) = self.index.remove(&txn) else {
            return;
        };
        let mut paths = paths.into_items();
        while let Some(path) = paths.pop() {
            let position = paths.len();
            self.records.remove(&RecordKey {
                path,
                txn,
                position,
            });
        }
    }

    /// The other transactions that have a provisional write whose intents conflict with those of a write of `txn` at
    /// `path`, each once and with its status tablet, by rising id. Intents conflict where one path has two of them, at
    /// least one is strong, and one is a read and the other a write; so these are the transactions with a write on a
    /// related path.
    pub fn conflicting(&self, path: &Path, txn: TxnId) -> Result<Founds, Memory>
        ensures conflicting { (ps : List Intent) → Holds self.now ps → IfOk result (λ others. others ≡ founds_in ps (others_meeting txn path.now ps)) }
        ensures related { (ps : List Intent) → Holds self.now ps → IfOk result (λ others. others ≡ founds_in ps (others_on txn path.now ps)) }
    {
        writes_meet_where_related();
        let asked = Asked {
            own: Some(txn),
            until: None,
        };
        let mut found = BTreeSet::new(self.alloc);
        self.find_related(path, &asked, &mut found)?;
        self.founds(&found)
    }

    /// The transactions other than `own` that have a provisional write on a path related to one of `paths` which became
    /// provisional not later than `until`, each once and with its status tablet, by rising id.
    pub fn related_until(
        &self,
        paths: &Paths,
        own: Option<TxnId>,
        until: HybridTime,
    ) -> Result<Founds, Memory>
        ensures { (ps : List Intent) → Holds self.now ps → IfOk result (λ others. others ≡ founds_in ps (others_until own paths.now until ps)) }
    {
        let asked = Asked {
            own,
            until: Some(until),
        };
        let mut found = BTreeSet::new(self.alloc);
        for path in paths.items() {
            self.find_related(path, &asked, &mut found)?;
        }
        self.founds(&found)
    }

    /// The metadata of the first provisional write of a transaction, where it has one. It takes no memory.
    pub fn meta(&self, txn: TxnId) -> Option<&Meta>
        ensures first { (ps : List Intent) → Holds self.now ps → option_copied result ≡ first_meta txn ps }
        ensures any { (ps : List Intent) → Holds self.now ps → is_some result ≡ has_any txn ps }
    {
        self.metas.get(&txn)
    }

    /// All transactions with a provisional write, each once and with its status tablet, by rising id.
    pub fn txns(&self) -> Result<Founds, Memory>
        ensures { (ps : List Intent) → Holds self.now ps → IfOk result (λ all. all ≡ founds_in ps ps) }
    {
        let mut found = BTreeSet::new(self.alloc);
        for txn in self.metas.keys() {
            found.insert(*txn)?;
        }
        self.founds(&found)
    }

    // These transactions with their status tablets.
    fn founds(&self, txns: &BTreeSet<TxnId>) -> Result<Founds, Memory>
        ensures told { IfOk result (λ founds. founds ≡ told (get nat_cmp self.now.metas) txns.now.keys) }
        ensures ordered { IsOrdered nat_cmp txns.now }
    {
        let mut founds = Founds::new(self.alloc);
        for txn in txns {
            if let Some(meta) = self.metas.get(txn) {
                founds.push(Found {
                    txn: *txn,
                    status: meta.status,
                })?;
            }
        }
        Ok(founds)
    }
}

// Adds a path to those of a transaction, and its metadata if it is the first. If memory runs out, both maps have what they
// had, where one has the transaction only if the other does.
fn list(
    alloc: Global,
    metas: &mut BTreeMap<TxnId, Meta>,
    index: &mut BTreeMap<TxnId, Paths>,
    meta: &Meta,
    path: Path,
) -> Result<(), Memory>
    ensures ok { OnOk result (Lists (get nat_cmp metas.old) (get nat_cmp index.old) meta.now path (get nat_cmp metas.new) (get nat_cmp index.new)) }
    ensures memory { OnErr result (ListsNothing (get nat_cmp metas.old) (get nat_cmp index.old) meta.now (get nat_cmp metas.new) (get nat_cmp index.new)) }
{
    if let Some(paths) = index.get_mut(&meta.txn) {
        return paths.push(path);
    }
    let mut paths = Paths::new(alloc);
    paths.push(path)?;
    metas.insert(meta.txn, *meta)?;
    if index.insert(meta.txn, paths).is_err() {
        metas.remove(&meta.txn);
        return Err(AllocError);
    }
    Ok(())
}
