//! A write: a path and what is done there.
use crate::op::Op;
use doc_path::Path;
use docdb_base::{Memory, TryCopy};
use std::alloc::Global;

/// A write: a path and what is done there.
#[derive(Debug, Drop)]
pub struct Written {
    pub path: Path,
    pub op: Op,
}

impl TryCopy for Written {
    fn try_copy(&self, alloc: Global) -> Result<Written, Memory> {
        Ok(Written {
            path: self.path.try_copy(alloc)?,
            op: self.op.try_copy(alloc)?,
        })
    }
}
