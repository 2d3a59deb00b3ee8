//! The end of a read.
use crate::lists::Limits;
use crate::read_what::ReadWhat;
use docdb_base::{Memory, TryCopy};
use hybrid_time::HybridTime;
use std::alloc::Global;

/// The end of a read.
#[derive(Debug, Drop)]
pub struct ReadEnd {
    pub what: ReadWhat,
    /// Its final time.
    pub t: HybridTime,
    /// How many visits met a newer version.
    pub restarts: u32,
    /// The local limits that are fixed now.
    pub limits: Limits,
}

impl TryCopy for ReadEnd {
    fn try_copy(&self, alloc: Global) -> Result<ReadEnd, Memory> {
        Ok(ReadEnd {
            what: self.what.try_copy(alloc)?,
            t: self.t,
            restarts: self.restarts,
            limits: self.limits.try_copy(alloc)?,
        })
    }
}
