//! The lines of a session that are left.
ghost use Rattle.std.specs.Prelude.{◌≡◌, ◌≤◌, ◌<◌, ◌+◌, true, false, ◌&&◌, [], ◌∷◌, ◌++◌, length, IfSome, IsNone, OnOk, OnErr};
ghost use Rattle.std.specs.List.{list_all};
ghost use Rattle.session_core.specs.Lines.{has_few_places};
ghost use Rattle.mover_chain.specs.NextEvent.{Starts, NoneLeft, is_left};
ghost use Rattle.mover_seat.specs.Step.{clock_of};

use crate::moved::Moved;
use docdb_base::Memory;
use std::alloc::{AllocError, Global};
use std::collections::VecDeque;
use txn_types::Command;

/// The lines of a session that are left.
#[derive(Drop)]
pub(crate) struct Lines {
    pub(crate) left: VecDeque<Command>,
    /// How many were given, at most 4,000,000,000.
    pub(crate) given: u64,
    /// No more lines are given.
    pub(crate) finished: bool,
    /// The session took End, behind its last line.
    pub(crate) ended: bool,
    /// The clock of the line that was taken last.
    pub(crate) clock: Moved,
    ghost few: { given ≤ 4000000000 },
    ghost within: { length left.items ≤ given },
    ghost places: { list_all has_few_places left.items ≡ true },
    ghost last: { ended ≡ true → left.items ≡ [] },
    ghost over: { ended ≡ true → finished ≡ true },
}

impl Lines {
    ghost use Rattle.mover_seat.specs.Lines.{line_next, Takes, Stays};

    /// None was given so far.
    pub(crate) fn new(alloc: Global) -> Lines
        ensures left { result.left.items ≡ [] }
        ensures given { result.given ≡ 0 }
        ensures finished { result.finished ≡ false }
        ensures ended { result.ended ≡ false }
    {
        Lines {
            left: VecDeque::new(alloc),
            given: 0,
            finished: false,
            ended: false,
            clock: Moved::Event,
        }
    }

    /// Gives one more. If memory runs out, the lines are as before.
    pub(crate) fn give(&mut self, line: Command) -> Result<(), Memory>
        requires more { self.old.given < 4000000000 }
        requires places { has_few_places line ≡ true }
        requires open { self.old.finished ≡ false }
        ensures left { OnOk result (self.new.left.items ≡ self.old.left.items ++ line ∷ []) }
        ensures given { OnOk result (self.new.given ≡ self.old.given + 1) }
        ensures memory { OnErr result ((self.new.left.items ≡ self.old.left.items) × (self.new.given ≡ self.old.given)) }
        ensures finished { self.new.finished ≡ self.old.finished }
        ensures ended { self.new.ended ≡ self.old.ended }
        ensures clock { self.new.clock ≡ self.old.clock }
    {
        self.left.push_back(line).map_err(AllocError::from)?;
        self.given += 1;
        Ok(())
    }

    /// Whether there is a next line, or End, where a transaction is open (`is_open`) or not.
    pub(crate) fn has_next(&self, is_open: bool) -> bool
        ensures { result ≡ is_left (line_next self.now is_open) }
    {
        !self.left.is_empty() || (self.finished && !self.ended && is_open)
    }

    /// Takes the next line, where there is one, or else End, where no more lines come, a transaction is open (`is_open`) and
    /// End was not taken.
    pub(crate) fn take(&mut self, is_open: bool) -> Option<Command>
        ensures some { IfSome result (λ line. (line_next self.old is_open ≡ Starts line) × Takes self.old line self.new) }
        ensures places { IfSome result (λ line. has_few_places line ≡ true) }
        ensures none { IsNone result → (line_next self.old is_open ≡ NoneLeft) × Stays self.old self.new }
    {
        match self.left.pop_front() {
            Some(line) => {
                self.clock = clock_of(&line);
                Some(line)
            }
            None => self.end(is_open),
        }
    }

    // Takes End, where none is left.
    fn end(&mut self, is_open: bool) -> Option<Command>
        requires { self.old.left.items ≡ [] }
        ensures some { IfSome result (λ line. (line_next self.old is_open ≡ Starts line) × Takes self.old line self.new) }
        ensures places { IfSome result (λ line. has_few_places line ≡ true) }
        ensures none { IsNone result → (line_next self.old is_open ≡ NoneLeft) × Stays self.old self.new }
    {
        if self.finished && !self.ended && is_open {
            self.ended = true;
            self.clock = Moved::Event;
            Some(Command::End)
        } else {
            None
        }
    }
}

/// The clock that a line sets.
fn clock_of(line: &Command) -> Moved
    ensures { result ≡ clock_of line.now }
{
    match line {
        Command::Clock { node, micros } => Moved::Clock {
            node: *node,
            micros: *micros,
        },
        _ => Moved::Event,
    }
}
