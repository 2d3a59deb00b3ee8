//! Where a primary record stands.
ghost use Rattle.std.specs.Prelude.{◌≡◌, ◌≤◌, ◌&&◌, nat_eq, IfOk};
ghost use Rattle.std.specs.Ordering.{is_eq};
ghost use Rattle.doc_path.specs.Path.{path_order};
ghost use Rattle.intent_records.specs.Keys.{key_order};

use doc_path::Path;
use docdb_base::{Memory, TryCopy};
use std::alloc::Global;
use std::cmp::Ordering;
use txn_types::TxnId;

/// Where a primary record stands: by path, then by transaction, and then in the order of adding.
#[derive(Debug, Drop)]
pub struct RecordKey {
    pub path: Path,
    pub txn: TxnId,
    /// How many records of its transaction were added before it.
    pub position: usize,
}

impl RecordKey {
    /// The least key on a path.
    pub fn first_at(alloc: Global, path: &Path) -> Result<RecordKey, Memory>
        ensures { IfOk result (λ key. key ≡ (record { path = path.now; txn = 0; position = 0 })) }
    {
        Ok(RecordKey {
            path: path.try_copy(alloc)?,
            txn: TxnId { number: 0 },
            position: 0,
        })
    }

    /// Whether both are keys of one transaction on one path.
    pub fn is_alike(&self, other: &RecordKey) -> bool
        ensures { result ≡ (nat_eq self.now.txn other.now.txn && is_eq (path_order self.now.path other.now.path)) }
    {
        self.txn == other.txn && self.path.cmp(&other.path).is_eq()
    }

    /// The greatest key of its transaction on its path.
    pub fn last_alike(&self, alloc: Global) -> Result<RecordKey, Memory>
        ensures last { IfOk result (λ key. key ≡ (record { path = self.now.path; txn = self.now.txn; position = 0xffff_ffff_ffff_ffff })) }
        ensures within { self.now.position ≤ 0xffff_ffff_ffff_ffff }
    {
        prove!(self.position <= usize::MAX);
        Ok(RecordKey {
            path: self.path.try_copy(alloc)?,
            txn: self.txn,
            position: usize::MAX,
        })
    }
}

impl PartialEq for RecordKey {
    ghost use Rattle.std.specs.Ordering.{eq_by_cmp};
    ghost use Rattle.std.specs.Cmp.{partial_equiv_from_equiv};
    ghost use Rattle.intent_records.specs.Keys.{key_order};
    ghost use Rattle.intent_records.specs.KeyOrder.{key_order_equiv};

    ghost eq = { eq_by_cmp key_order };

    ghost laws = { partial_equiv_from_equiv key_order_equiv };

    fn eq(&self, other: &RecordKey) -> bool {
        self.cmp(other).is_eq()
    }
}

impl Eq for RecordKey {
    ghost use Rattle.intent_records.specs.KeyOrder.{key_order_equiv};

    ghost laws = { key_order_equiv };
}

impl PartialOrd for RecordKey {
    ghost use Rattle.std.specs.Ordering.{as_partial_cmp};
    ghost use Rattle.std.specs.Cmp.{partial_order_from_total};
    ghost use Rattle.intent_records.specs.Keys.{key_order};
    ghost use Rattle.intent_records.specs.KeyOrder.{key_order_total};

    ghost partial_cmp = { as_partial_cmp key_order };

    ghost laws = { partial_order_from_total key_order_total };

    fn partial_cmp(&self, other: &RecordKey) -> Option<Ordering> {
        Some(self.cmp(other))
    }
}

impl Ord for RecordKey {
    ghost use mathlib.Core.Path.{refl};
    ghost use Rattle.intent_records.specs.Keys.{key_order};
    ghost use Rattle.intent_records.specs.KeyOrder.{key_order_total};

    ghost cmp = { key_order };

    ghost total = { key_order_total };

    ghost matches_partial_cmp = { λ x y. refl };

    ghost matches_eq = { λ x y. refl };

    fn cmp(&self, other: &RecordKey) -> Ordering {
        match self.path.cmp(&other.path) {
            Ordering::Equal => match self.txn.cmp(&other.txn) {
                Ordering::Equal => self.position.cmp(&other.position),
                order => order,
            },
            order => order,
        }
    }
}
