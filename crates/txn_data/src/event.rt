//! What an entry of a history records.
use crate::actor::Actor;
use crate::append::Append;
use crate::command::Command;
use crate::reply::Reply;
use crate::request::Request;
use crate::told::Told;
use docdb_base::{Memory, TryCopy};
use hybrid_time::HybridTime;
use std::alloc::Global;

/// What an entry of a history records.
#[derive(Debug, Drop)]
pub enum Event {
    /// A command begins; its number among the mover's own, from 1.
    Start {
        command: u32,
        line: Command,
    },
    /// A request leaves.
    Ask {
        to: Actor,
        request: Request,
    },
    /// An actor serves the request of a mover.
    Serve {
        from: Actor,
        request: Request,
        reply: Reply,
        time: Option<HybridTime>,
        append: Append,
    },
    /// A reply arrives.
    Hear {
        from: Actor,
        reply: Reply,
    },
    /// A command ends.
    Tell {
        command: u32,
        told: Told,
    },
    /// An actor served a restart, and holds what its log holds.
    Restarted {
        from: Actor,
        kept: bool,
    },
}

impl TryCopy for Event {
    fn try_copy(&self, alloc: Global) -> Result<Event, Memory> {
        match self {
            Event::Start { command, line } => Ok(Event::Start {
                command: *command,
                line: line.try_copy(alloc)?,
            }),
            Event::Ask { to, request } => Ok(Event::Ask {
                to: *to,
                request: request.try_copy(alloc)?,
            }),
            Event::Serve {
                from,
                request,
                reply,
                time,
                append,
            } => Ok(Event::Serve {
                from: *from,
                request: request.try_copy(alloc)?,
                reply: reply.try_copy(alloc)?,
                time: *time,
                append: *append,
            }),
            Event::Hear { from, reply } => Ok(Event::Hear {
                from: *from,
                reply: reply.try_copy(alloc)?,
            }),
            Event::Tell { command, told } => Ok(Event::Tell {
                command: *command,
                told: told.try_copy(alloc)?,
            }),
            Event::Restarted { from, kept } => Ok(Event::Restarted {
                from: *from,
                kept: *kept,
            }),
        }
    }
}
