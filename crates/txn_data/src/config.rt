//! A cluster.
use crate::lists::Readings;
use crate::schedule::Schedule;
use docdb_base::{Memory, TryCopy};
use std::alloc::Global;

/// A cluster.
#[derive(Debug, Drop)]
pub struct Config {
    /// 1 to 16.
    pub nodes: u32,
    /// 1 to 64.
    pub tablets: u32,
    /// Status tablets, 1 to 16.
    pub status: u32,
    /// The passes of each applier beside the sessions, 0 to 1,000.
    pub passes: u32,
    /// By how many microseconds clocks may differ, 0 to 10,000,000.
    pub skew_us: u64,
    /// How long a lease is, 1 to 60,000,000 microseconds.
    pub lease_us: u64,
    /// Where the generator starts.
    pub number: u64,
    /// The first reading of each node, in microseconds.
    pub start_us: Readings,
    pub schedule: Schedule,
}

impl TryCopy for Config {
    fn try_copy(&self, alloc: Global) -> Result<Config, Memory> {
        Ok(Config {
            nodes: self.nodes,
            tablets: self.tablets,
            status: self.status,
            passes: self.passes,
            skew_us: self.skew_us,
            lease_us: self.lease_us,
            number: self.number,
            start_us: self.start_us.try_copy(alloc)?,
            schedule: self.schedule,
        })
    }
}
