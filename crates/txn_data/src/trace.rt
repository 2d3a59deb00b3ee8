//! A recorded history.
use crate::lists::Entries;
use docdb_base::{Memory, TryCopy};
use std::alloc::Global;

/// A recorded history.
#[derive(Debug, Drop)]
pub struct Trace {
    pub entries: Entries,
}

impl TryCopy for Trace {
    fn try_copy(&self, alloc: Global) -> Result<Trace, Memory> {
        Ok(Trace {
            entries: self.entries.try_copy(alloc)?,
        })
    }
}
