//! What became of the append of an action.
use docdb_base::{Memory, TryCopy};
use std::alloc::Global;

/// What became of the append of an action.
#[derive(Clone, Copy, Debug, PartialEq, Eq)]
pub enum Append {
    /// There was nothing to log.
    Nothing,
    /// The log took it.
    Took,
    /// It failed: the log holds all of it or nothing of it.
    Failed,
}

impl TryCopy for Append {
    fn try_copy(&self, _alloc: Global) -> Result<Append, Memory> {
        Ok(*self)
    }
}
