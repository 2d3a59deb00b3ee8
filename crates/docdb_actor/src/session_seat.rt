//! A session by hand.
ghost use Rattle.std.specs.Prelude.{◌≡◌, ◌≤◌, true};
ghost use Rattle.docdb_actor.specs.Awaits.{does_await};

use crate::awaits::Awaits;
use crate::session_line::{SessionLine, awaited, has_few_places, may_hear, put_turn};
use crate::unanswered::Unanswered;
use actor_words::Line;
use docdb_base::Memory;
use session_core::SessionCore;
use std::alloc::Global;
use txn_types::{Command, Reply};

/// The most commands of a session.
const MOST_COMMANDS: u64 = 4_000_000_001;

/// A session, and what it waits for.
#[derive(Drop)]
pub struct SessionSeat {
    core: SessionCore,
    awaits: Awaits,
    ghost awaited: { does_await core awaits ≡ true },
}

impl SessionSeat {
    /// A session that starts, as `SessionCore::open` makes it.
    pub fn open(
        alloc: Global,
        session: u32,
        node: u32,
        status: u32,
        skew_us: u64,
    ) -> Result<SessionSeat, Memory>
        requires { skew_us ≤ 10000000 }
    {
        let core = SessionCore::open(alloc, session, node, status, skew_us)?;
        Ok(SessionSeat {
            core,
            awaits: Awaits::Command,
        })
    }

    /// Does what a line says, and puts what comes of it at the end of `text`.
    pub fn answer(
        &mut self,
        alloc: Global,
        line: &[u8],
        text: &mut Line,
    ) -> Result<(), Unanswered> {
        match SessionLine::of(alloc, line)? {
            SessionLine::Command(command) => self.start(&command, text),
            SessionLine::Reading(reading) => self.given(reading, text),
            SessionLine::Hears(reply) => self.hear(&reply, text),
        }
    }

    fn start(&mut self, command: &Command, text: &mut Line) -> Result<(), Unanswered> {
        if !has_few_places(command) {
            return Err(Unanswered::Form);
        }
        let Awaits::Command = self.awaits else {
            return Err(Unanswered::NotAwaited);
        };
        if self.core.commands() >= MOST_COMMANDS {
            return Err(Unanswered::NotAwaited);
        }
        let next = self.core.start(command);
        self.awaits = awaited(&next);
        Ok(put_turn(text, &next)?)
    }

    fn given(&mut self, reading: u64, text: &mut Line) -> Result<(), Unanswered> {
        let Awaits::Reading = self.awaits else {
            return Err(Unanswered::NotAwaited);
        };
        let next = self.core.given(reading);
        self.awaits = awaited(&next);
        Ok(put_turn(text, &next)?)
    }

    fn hear(&mut self, reply: &Reply, text: &mut Line) -> Result<(), Unanswered> {
        let Awaits::Reply { from } = self.awaits else {
            return Err(Unanswered::NotAwaited);
        };
        if !may_hear(&self.core, reply) {
            return Err(Unanswered::NotAwaited);
        }
        let next = self.core.hear(from, reply);
        self.awaits = awaited(&next);
        Ok(put_turn(text, &next)?)
    }
}
