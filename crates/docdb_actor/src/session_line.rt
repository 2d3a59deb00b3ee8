//! The lines of a session.
ghost use Rattle.std.specs.Prelude.{◌≡◌, true};
ghost use Rattle.session_core.specs.Core.{StandsAfter, reads};
ghost use Rattle.session_core.specs.Lines.{has_few_places, is_listed};
ghost use Rattle.session_core.specs.declared.session_core.SessionCore.{SessionCore};
ghost use Rattle.docdb_actor.specs.Awaits.{does_await};

use crate::awaits::Awaits;
use actor_words::{Line, NotRead, Words, read_command, read_reply};
use docdb_base::Memory;
use session_core::{SessionCore, Turn};
use std::alloc::Global;
use txn_types::{Command, Reply};

/// A line of a session.
#[derive(Debug, Drop)]
pub enum SessionLine {
    Command(Command),
    /// In microseconds.
    Reading(u64),
    Hears(Reply),
}

impl SessionLine {
    /// What a line says.
    pub fn of(alloc: Global, line: &[u8]) -> Result<SessionLine, NotRead> {
        let mut words = Words::of(line);
        match words.next()? {
            b"reading" => {
                let reading = words.number()?;
                words.end()?;
                Ok(SessionLine::Reading(reading))
            }
            b"hears" => Ok(SessionLine::Hears(read_reply(alloc, words)?)),
            _ => Ok(SessionLine::Command(read_command(alloc, Words::of(line))?)),
        }
    }
}

/// Whether a read has at most sixteen places.
pub fn has_few_places(command: &Command) -> bool
    ensures { result ≡ has_few_places command.now }
{
    match command {
        Command::Read { places, .. } => places.items().len() <= 16,
        _ => true,
    }
}

/// Whether the session may hear this reply: a list for a read comes only to a read.
pub fn may_hear(core: &SessionCore, reply: &Reply) -> bool
    ensures { result ≡ true → is_listed reply.now ≡ true → reads core.now ≡ true }
{
    match reply {
        Reply::Listed { .. } => core.reads(),
        _ => true,
    }
}

/// What a session waits for after a call.
pub fn awaited(next: &Result<Turn, Memory>) -> Awaits
    ensures { (core : SessionCore) → StandsAfter core next.now → does_await core result ≡ true }
{
    match next {
        Ok(Turn::Reading) => Awaits::Reading,
        Ok(Turn::Ask { to, .. }) => Awaits::Reply { from: *to },
        Ok(Turn::Tell(_)) | Err(_) => Awaits::Command,
    }
}

/// Puts what a call gave at the end of a line.
pub fn put_turn(text: &mut Line, next: &Result<Turn, Memory>) -> Result<(), Memory> {
    text.word(b"=>")?;
    match next {
        Ok(Turn::Reading) => text.word(b"reading"),
        Ok(Turn::Ask { to, request }) => {
            text.word(b"asks")?;
            text.actor(*to)?;
            text.request(request)
        }
        Ok(Turn::Tell(told)) => {
            text.word(b"told")?;
            text.told(told)
        }
        Err(_) => text.word(b"memory"),
    }
}
