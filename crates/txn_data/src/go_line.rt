//! A mover and how many events it goes on.
use crate::mover::Mover;
use docdb_base::{Memory, TryCopy};
use std::alloc::Global;

/// A mover and how many events it goes on.
#[derive(Clone, Copy, Debug, PartialEq, Eq)]
pub struct GoLine {
    pub who: Mover,
    pub count: u32,
}

impl TryCopy for GoLine {
    fn try_copy(&self, _alloc: Global) -> Result<GoLine, Memory> {
        Ok(*self)
    }
}
