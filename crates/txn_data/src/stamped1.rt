//! An entry with its stamp.
use crate::entry::Entry;
use docdb_base::{Memory, TryCopy};
use std::alloc::Global;

/// An entry with its stamp.
#[derive(Debug, Drop)]
pub struct Stamped1 {
    pub stamp: u64,
    pub entry: Entry,
}

impl TryCopy for Stamped1 {
    fn try_copy(&self, alloc: Global) -> Result<Stamped1, Memory> {
        Ok(Stamped1 {
            stamp: self.stamp,
            entry: self.entry.try_copy(alloc)?,
        })
    }
}
