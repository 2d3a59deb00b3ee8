//! The accepted writes of an open transaction.
ghost use Rattle.std.specs.Prelude.{◌≡◌, ◌≤◌, ◌<◌, ◌+◌, ◌^◌, ◌++◌, ◌∷◌, [], List, length, IfOk, OnOk};
ghost use Rattle.txn_data.specs.declared.place.Place.{Place as Asked};
ghost use Rattle.txn_data.specs.declared.read_kind.ReadKind.TheVariants.{Get, Scan};
ghost use Rattle.txn_types.specs.Session.{tablets_used, writes_of, rows_under};
ghost use Rattle.own_writes.specs.Accepted.{all_accepted};
ghost use Rattle.own_writes.specs.Indexed.{IsIndexed};

use crate::accepted::Accepted;
use crate::merging::merged;
use crate::overlay::{rows_over, rows_untouched, versions_of};
use docdb_base::{Memory, Seq};
use hybrid_time::HybridTime;
use indexmap::IndexSet;
use regular_records::{MapVersions, Versions};
use std::alloc::Global;
use txn_types::{Op, Place, Rows, Tablets, Written};

/// The accepted writes of an open transaction, in their order, and their tablets, in the order of first use.
#[derive(Drop)]
pub struct OwnWrites {
    alloc: Global,
    writes: Vec<Accepted>,
    tablets: IndexSet<u32>,
    /// The first `indexed` writes, by path. A read puts the others there first.
    by_path: MapVersions,
    indexed: usize,
    ghost in_order: { tablets.keys ≡ tablets_used [] (all_accepted writes.items) },
    ghost few: { length writes.items ≤ 2 ^ 32 },
    ghost within: { indexed ≤ length writes.items },
    ghost held: { IsIndexed by_path indexed writes.items },
}

impl OwnWrites {
    ghost use Rattle.own_writes.specs.OwnWrites.{writes, HasRoom};

    /// No writes. It takes no memory.
    pub fn new(alloc: Global) -> OwnWrites
        ensures { writes result ≡ [] }
    {
        OwnWrites {
            alloc,
            writes: Vec::new(alloc),
            tablets: IndexSet::new(alloc),
            by_path: MapVersions::new(alloc),
            indexed: 0,
        }
    }

    /// How many there are.
    pub fn len(&self) -> usize
        ensures { result ≡ length (writes self.now) }
    {
        self.writes.len()
    }

    /// Makes room for one more.
    pub fn make_room(&mut self) -> Result<(), Memory>
        ensures same { writes self.new ≡ writes self.old }
        ensures room { OnOk result (HasRoom self.new) }
    {
        self.writes.reserve(1)?;
        self.tablets.reserve(1)
    }

    /// Puts a write at the end. It takes no memory.
    pub fn push(&mut self, place: Place, op: Op)
        requires room { HasRoom self.old }
        requires few { length (writes self.old) < 2 ^ 32 }
        ensures { writes self.new ≡ writes self.old ++ (record { tablet = place.tablet; write = record { path = place.path; op = op } }) ∷ [] }
    {
        let Place { tablet, path } = place;
        let write = Written { path, op };
        let Ok(_) = self.tablets.insert(tablet) else {
            unreachable!();
        };
        let Ok(()) = self.writes.push(Accepted { tablet, write }) else {
            unreachable!();
        };
    }

    /// The tablets that accepted them, in the order of first use.
    pub fn tablets(&self) -> Result<Tablets, Memory>
        ensures { IfOk result (λ tablets. tablets ≡ tablets_used [] (writes self.now)) }
    {
        let mut tablets = Seq::new(self.alloc);
        for tablet in self.tablets.as_slice() {
            tablets.push(*tablet)?;
        }
        Ok(tablets)
    }

    /// The rows that a read of single places found, beneath these writes. It looks each row up.
    pub fn over_rows(&mut self, rows: Rows) -> Result<Rows, Memory>
        ensures rows { (places : List Asked) → IfOk result (λ all. all ≡ rows_under Get (writes_of (writes self.old)) places rows) }
        ensures same { writes self.new ≡ writes self.old }
        ensures room { HasRoom self.old → HasRoom self.new }
    {
        self.index()?;
        rows_over(self.alloc, &self.by_path, rows)
    }

    /// The rows that a scan of this place found, beneath these writes. It looks each row up, and goes through the writes
    /// at and beneath the place.
    pub fn over_scan(&mut self, place: &Place, rows: Rows) -> Result<Rows, Memory>
        ensures rows { IfOk result (λ all. all ≡ rows_under Scan (writes_of (writes self.old)) (place.now ∷ []) rows) }
        ensures same { writes self.new ≡ writes self.old }
        ensures room { HasRoom self.old → HasRoom self.new }
    {
        self.index()?;
        let own = self.by_path.scan_at(&place.path, HybridTime::ZERO)?;
        let rest = rows_untouched(self.alloc, &self.by_path, rows)?;
        merged(self.alloc, own.into_items(), rest)
    }

    // Puts the writes that are not there yet in by their paths.
    fn index(&mut self) -> Result<(), Memory>
        ensures same { writes self.new ≡ writes self.old }
        ensures all { OnOk result (self.new.indexed ≡ length self.new.writes.items) }
        ensures room { HasRoom self.old → HasRoom self.new }
    {
        let versions = versions_of(self.alloc, &self.writes[self.indexed..], self.indexed)?;
        self.by_path.add_all(versions)?;
        self.indexed = self.writes.len();
        Ok(())
    }
}
