//! How a read ended.
use crate::lists::Rows;
use crate::told_refusal::ToldRefusal;
use doc_path::Path;
use docdb_base::{Memory, TryCopy};
use hybrid_time::HybridTime;
use std::alloc::Global;

/// How a read ended.
#[derive(Debug, Drop)]
pub enum ReadWhat {
    Values(Rows),
    Restart { at: HybridTime, path: Path },
    Refused(ToldRefusal),
}

impl TryCopy for ReadWhat {
    fn try_copy(&self, alloc: Global) -> Result<ReadWhat, Memory> {
        match self {
            ReadWhat::Values(inner) => Ok(ReadWhat::Values(inner.try_copy(alloc)?)),
            ReadWhat::Restart { at, path } => Ok(ReadWhat::Restart {
                at: *at,
                path: path.try_copy(alloc)?,
            }),
            ReadWhat::Refused(inner) => Ok(ReadWhat::Refused(inner.try_copy(alloc)?)),
        }
    }
}
