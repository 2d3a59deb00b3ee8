//! The actor at hand, and its lines.
ghost use Rattle.std.specs.Prelude.{◌<◌};

use crate::opening::opened;
use crate::seated::Seated;
use crate::unanswered::Unanswered;
use actor_words::Line;
use docdb_base::Memory;
use docdb_outside::MemLog;
use std::alloc::{AllocError, Global};
use std::mem;

/// The actor at hand.
#[derive(Drop)]
pub struct Sitting {
    alloc: Global,
    seated: Seated,
}

impl Sitting {
    /// No actor is open.
    pub fn new(alloc: Global) -> Sitting {
        Sitting {
            alloc,
            seated: Seated::Nobody,
        }
    }

    /// Takes a line: the line again, and what is answered.
    pub fn takes(&mut self, line: &[u8]) -> Result<Line, Memory> {
        let mut text = Line::of(self.alloc, line)?;
        if !is_remark(line) {
            match self.answer(line, &mut text) {
                Ok(()) => {}
                Err(why) => put_why(&mut text, why)?,
            }
        }
        text.mark(b"\n")?;
        Ok(text)
    }

    fn answer(&mut self, line: &[u8], text: &mut Line) -> Result<(), Unanswered> {
        if let Some(seated) = opened(self.alloc, line)? {
            self.seated = seated;
            text.word(b"=>")?;
            return Ok(text.word(b"open")?);
        }
        if line == b"log".as_slice() {
            return self.log(text);
        }
        match &mut self.seated {
            Seated::Nobody => Err(Unanswered::NoActor),
            Seated::Session(session) => session.answer(self.alloc, line, text),
            Seated::Machine(machine) => machine.answer(self.alloc, line, text),
        }
    }

    // The actor ends, and leaves its log.
    fn log(&mut self, text: &mut Line) -> Result<(), Unanswered> {
        let log = self.ended()?;
        text.word(b"=>")?;
        text.number(log.held().len() as u64)?;
        text.word(b"bytes")?;
        put_hex(text, log.held())?;
        Ok(())
    }

    fn ended(&mut self) -> Result<MemLog, Unanswered> {
        match mem::replace(&mut self.seated, Seated::Nobody) {
            Seated::Nobody => Err(Unanswered::NoActor),
            Seated::Session(session) => {
                self.seated = Seated::Session(session);
                Err(Unanswered::Form)
            }
            Seated::Machine(machine) => Ok(machine.into_log()),
        }
    }
}

// Puts bytes behind a blank, two digits each, where there are any.
fn put_hex(text: &mut Line, bytes: &[u8]) -> Result<(), Memory> {
    if !bytes.is_empty() {
        text.mark(b" ")?;
    }
    'bytes: for byte in bytes {
        text.mark(&[digit(*byte / 16), digit(*byte % 16)])?;
    }
    Ok(())
}

fn digit(value: u8) -> u8
    requires { value < 16 }
{
    if value < 10 {
        b'0' + value
    } else {
        b'a' + (value - 10)
    }
}

// Whether a line asks for no answer.
fn is_remark(line: &[u8]) -> bool {
    match line {
        [] | [b'#', ..] => true,
        _ => false,
    }
}

// Puts why a line does not reach an actor at its end. Out of memory ends the program.
fn put_why(text: &mut Line, why: Unanswered) -> Result<(), Memory> {
    text.word(b"=>")?;
    match why {
        Unanswered::Form => text.word(b"not understood"),
        Unanswered::NotAwaited => text.word(b"not awaited"),
        Unanswered::NoActor => text.word(b"no actor"),
        Unanswered::Memory => Err(AllocError),
    }
}
