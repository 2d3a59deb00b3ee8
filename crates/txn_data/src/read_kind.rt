//! What a read asks for.
use docdb_base::{Memory, TryCopy};
use std::alloc::Global;

/// What a read asks for.
#[derive(Clone, Copy, Debug, PartialEq, Eq)]
pub enum ReadKind {
    /// The values at its paths, in their order.
    Get,
    /// All values at or beneath one path, in path order.
    Scan,
}

impl TryCopy for ReadKind {
    fn try_copy(&self, _alloc: Global) -> Result<ReadKind, Memory> {
        Ok(*self)
    }
}
