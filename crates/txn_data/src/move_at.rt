//! A move, with the readings of all nodes, in microseconds.
use crate::lists::Readings;
use crate::mover::Mover;
use docdb_base::{Memory, TryCopy};
use std::alloc::Global;

/// A move, with the readings of all nodes, in microseconds.
#[derive(Debug, Drop)]
pub struct MoveAt {
    pub who: Mover,
    pub readings: Readings,
}

impl TryCopy for MoveAt {
    fn try_copy(&self, alloc: Global) -> Result<MoveAt, Memory> {
        Ok(MoveAt {
            who: self.who,
            readings: self.readings.try_copy(alloc)?,
        })
    }
}
