//! How a transaction is kept apart from others.
use docdb_base::{Memory, TryCopy};
use std::alloc::Global;

/// How a transaction is kept apart from others.
#[derive(Clone, Copy, Debug, PartialEq, Eq)]
pub enum Isolation {
    /// Snapshot isolation: reads at one time, and no related write of another since then.
    Snapshot,
}

impl TryCopy for Isolation {
    fn try_copy(&self, _alloc: Global) -> Result<Isolation, Memory> {
        Ok(*self)
    }
}
