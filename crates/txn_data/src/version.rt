//! A committed write as a tablet keeps it.
use crate::op::Op;
use doc_path::Path;
use docdb_base::{Memory, TryCopy};
use hybrid_time::HybridTime;
use std::alloc::Global;

/// A committed write as a tablet keeps it.
#[derive(Debug, Drop)]
pub struct Version {
    pub path: Path,
    /// Its commit time.
    pub at: HybridTime,
    /// The time at which it was provisional, or the commit time of a single write.
    pub wrote: HybridTime,
    /// Its number among the writes of its transaction, from 0.
    pub number: u32,
    pub op: Op,
}

impl TryCopy for Version {
    fn try_copy(&self, alloc: Global) -> Result<Version, Memory> {
        Ok(Version {
            path: self.path.try_copy(alloc)?,
            at: self.at,
            wrote: self.wrote,
            number: self.number,
            op: self.op.try_copy(alloc)?,
        })
    }
}
