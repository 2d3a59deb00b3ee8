//! The lines of a tablet or a status tablet.
use actor_words::{Line, NotRead, Words, read_actor, read_request};
use docdb_base::Memory;
use std::alloc::Global;
use txn_types::{Actor, Append, Request, Served};

/// A line of a tablet or a status tablet.
#[derive(Debug, Drop)]
pub enum MachineLine {
    /// From here on the clock of its node reads this, in microseconds.
    Reading(u64),
    Asked { from: Actor, request: Request },
    /// How many actions it has made.
    Actions,
}

impl MachineLine {
    /// What a line says.
    pub fn of(alloc: Global, line: &[u8]) -> Result<MachineLine, NotRead> {
        let mut words = Words::of(line);
        match words.next()? {
            b"reading" => {
                let reading = words.number()?;
                words.end()?;
                Ok(MachineLine::Reading(reading))
            }
            b"actions" => {
                words.end()?;
                Ok(MachineLine::Actions)
            }
            [name @ .., b':'] => {
                let from = read_actor(name)?;
                let request = read_request(alloc, words)?;
                Ok(MachineLine::Asked { from, request })
            }
            _ => Err(NotRead::Form),
        }
    }
}

/// Puts what a request came to at the end of a line.
pub fn put_served(text: &mut Line, served: &Served) -> Result<(), Memory> {
    text.word(b"=>")?;
    text.reply(&served.reply)?;
    text.mark(b";")?;
    match served.time {
        Some(time) => text.time(time)?,
        None => text.word(b"-")?,
    }
    text.word(match served.append {
        Append::Nothing => b"nothing".as_slice(),
        Append::Took => b"took",
        Append::Failed => b"failed",
    })
}
