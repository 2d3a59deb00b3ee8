//! A command of a session.
use crate::actor::Actor;
use crate::lists::{Bytes, Places};
use crate::place::Place;
use docdb_base::{Memory, TryCopy};
use std::alloc::Global;

/// A command of a session.
#[derive(Debug, Drop)]
pub enum Command {
    Begin {
        priority: u32,
    },
    Put {
        place: Place,
        value: Bytes,
    },
    Del {
        place: Place,
    },
    Commit,
    Abort,
    /// Where `strict`, a newer version in the window is told and not read.
    Read {
        strict: bool,
        places: Places,
    },
    Scan {
        strict: bool,
        place: Place,
    },
    SinglePut {
        place: Place,
        value: Bytes,
        priority: u32,
    },
    SingleDel {
        place: Place,
        priority: u32,
    },
    Restart {
        actor: Actor,
    },
    Apply {
        tablet: u32,
    },
    Clock {
        node: u32,
        micros: u64,
    },
    /// The end of a session that has a transaction open.
    End,
}

impl TryCopy for Command {
    fn try_copy(&self, alloc: Global) -> Result<Command, Memory> {
        match self {
            Command::Begin { priority } => Ok(Command::Begin {
                priority: *priority,
            }),
            Command::Put { place, value } => Ok(Command::Put {
                place: place.try_copy(alloc)?,
                value: value.try_copy(alloc)?,
            }),
            Command::Del { place } => Ok(Command::Del {
                place: place.try_copy(alloc)?,
            }),
            Command::Commit => Ok(Command::Commit),
            Command::Abort => Ok(Command::Abort),
            Command::Read { strict, places } => Ok(Command::Read {
                strict: *strict,
                places: places.try_copy(alloc)?,
            }),
            Command::Scan { strict, place } => Ok(Command::Scan {
                strict: *strict,
                place: place.try_copy(alloc)?,
            }),
            Command::SinglePut {
                place,
                value,
                priority,
            } => Ok(Command::SinglePut {
                place: place.try_copy(alloc)?,
                value: value.try_copy(alloc)?,
                priority: *priority,
            }),
            Command::SingleDel { place, priority } => Ok(Command::SingleDel {
                place: place.try_copy(alloc)?,
                priority: *priority,
            }),
            Command::Restart { actor } => Ok(Command::Restart { actor: *actor }),
            Command::Apply { tablet } => Ok(Command::Apply { tablet: *tablet }),
            Command::Clock { node, micros } => Ok(Command::Clock {
                node: *node,
                micros: *micros,
            }),
            Command::End => Ok(Command::End),
        }
    }
}
