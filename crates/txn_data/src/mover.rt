//! An actor that asks.
use docdb_base::{Memory, TryCopy};
use std::alloc::Global;

/// An actor that asks.
#[derive(Clone, Copy, Debug, PartialEq, Eq)]
pub enum Mover {
    /// A session, counted from 1.
    Session(u32),
    /// The applier of the tablet with this number.
    Applier(u32),
}

impl TryCopy for Mover {
    fn try_copy(&self, _alloc: Global) -> Result<Mover, Memory> {
        Ok(*self)
    }
}
