//! The histories of all actors.
use crate::lists::Parts;
use docdb_base::{Memory, TryCopy};
use std::alloc::Global;

/// The histories of all actors.
#[derive(Debug, Drop)]
pub struct Histories {
    pub parts: Parts,
}

impl TryCopy for Histories {
    fn try_copy(&self, alloc: Global) -> Result<Histories, Memory> {
        Ok(Histories {
            parts: self.parts.try_copy(alloc)?,
        })
    }
}
