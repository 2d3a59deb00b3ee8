//! What a write does at its path.
use crate::lists::Bytes;
use docdb_base::{Memory, TryCopy};
use std::alloc::Global;

/// What a write does at its path.
#[derive(Debug, Drop)]
pub enum Op {
    /// Sets this encoded value, and hides what is beneath the path.
    Put(Bytes),
    /// Hides the path and what is beneath it.
    Delete,
}

impl TryCopy for Op {
    fn try_copy(&self, alloc: Global) -> Result<Op, Memory> {
        match self {
            Op::Put(inner) => Ok(Op::Put(inner.try_copy(alloc)?)),
            Op::Delete => Ok(Op::Delete),
        }
    }
}
