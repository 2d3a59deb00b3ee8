//! The order in which a simulation takes the moves.
use docdb_base::{Memory, TryCopy};
use std::alloc::Global;

/// The order in which a simulation takes the moves.
#[derive(Clone, Copy, Debug, PartialEq, Eq)]
pub enum Schedule {
    /// Commands whole, in line order.
    Serial,
    /// As the plan says.
    Go,
    /// By numbers of the generator.
    Drawn,
}

impl TryCopy for Schedule {
    fn try_copy(&self, _alloc: Global) -> Result<Schedule, Memory> {
        Ok(*self)
    }
}
