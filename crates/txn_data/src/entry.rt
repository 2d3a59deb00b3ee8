//! An entry of a history: who did what, with the reading of the clock that it used.
use crate::actor::Actor;
use crate::event::Event;
use docdb_base::{Memory, TryCopy};
use std::alloc::Global;

/// An entry of a history: who did what, with the reading of the clock that it used.
#[derive(Debug, Drop)]
pub struct Entry {
    pub actor: Actor,
    pub reading: Option<u64>,
    pub event: Event,
}

impl TryCopy for Entry {
    fn try_copy(&self, alloc: Global) -> Result<Entry, Memory> {
        Ok(Entry {
            actor: self.actor,
            reading: self.reading,
            event: self.event.try_copy(alloc)?,
        })
    }
}
