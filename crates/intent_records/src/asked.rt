//! Which records a search tells of.
ghost use Rattle.std.specs.Prelude.{◌≡◌, ℕ, ◌&&◌, ◌||◌, not, nat_eq, OnOk};
ghost use Rattle.std.specs.Ordering.{nat_cmp};
ghost use Rattle.std.specs.BTreeSet.{contains};
ghost use Rattle.txn_types.specs.Tablet.{is_own};
ghost use Rattle.intent_records.specs.Search.{settles};

use docdb_base::Memory;
use hybrid_time::HybridTime;
use std::collections::BTreeSet;
use txn_types::TxnId;

/// Which records a search tells of.
#[derive(Clone, Copy, Debug)]
pub struct Asked {
    /// The transaction whose records are left aside.
    pub own: Option<TxnId>,
    /// The last time at which a record may have become provisional.
    pub until: Option<HybridTime>,
}

impl Asked {
    /// Whether a record tells all that the records of its transaction at its path can tell: it is left aside with them, or
    /// it is told of.
    pub fn settles(&self, txn: TxnId, wrote: HybridTime) -> bool
        ensures { result ≡ settles self.now.own self.now.until txn wrote }
    {
        let in_time = match self.until {
            None => true,
            Some(until) => wrote <= until,
        };
        !self.is_other(txn) || in_time
    }

    /// Adds a transaction, unless it is left aside.
    pub fn add_to(&self, found: &mut BTreeSet<TxnId>, txn: TxnId) -> Result<(), Memory>
        ensures { OnOk result ((x : ℕ) → contains nat_cmp found.new x ≡ (contains nat_cmp found.old x || (not (is_own self.now.own txn) && nat_eq txn x))) }
    {
        if self.is_other(txn) {
            found.insert(txn)?;
        }
        Ok(())
    }

    fn is_other(&self, txn: TxnId) -> bool
        ensures { result ≡ not (is_own self.now.own txn) }
    {
        match self.own {
            None => true,
            Some(own) => txn != own,
        }
    }
}
