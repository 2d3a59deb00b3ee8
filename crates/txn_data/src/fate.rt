//! What a status tablet tells of a transaction.
use docdb_base::{Memory, TryCopy};
use hybrid_time::HybridTime;
use std::alloc::Global;

/// What a status tablet tells of a transaction.
#[derive(Clone, Copy, Debug, PartialEq, Eq)]
pub enum Fate {
    Pending,
    Committed { at: HybridTime },
    Aborted,
    /// There is no record: a provisional record that is still there was aborted.
    Absent,
}

impl TryCopy for Fate {
    fn try_copy(&self, _alloc: Global) -> Result<Fate, Memory> {
        Ok(*self)
    }
}
