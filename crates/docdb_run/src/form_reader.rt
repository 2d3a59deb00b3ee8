//! The lines of a script, one after another.
ghost use Rattle.std.specs.Prelude.{◌≡◌, ◌+◌, ◌<◌, ◌^◌, ℕ, [], ◌∷◌, Some, None, Err, OnOk, IfOk};
ghost use Rattle.docdb_run.specs.Form.{at_first, clock_after, with_command, with_line, after_line, line_of, form_over, Accepted, Later};

use crate::form_line::line_of;
use crate::form_refusal::FormRefusal;
use crate::line::Line;
use std::alloc::Global;
use std::marker::Model;
use txn_types::Command;

/// The most commands of a script.
const MOST_COMMANDS: usize = 100_000;

/// What is read of a script: the last clock, the number of the next line, and the commands so far.
#[derive(Debug, Drop)]
pub struct FormReader {
    clock: u64,
    line: u64,
    commands: Vec<Command>,
}

impl Model for FormReader {
    ghost use Rattle.docdb_run.specs.Form.{Reading};

    ghost Value = { Reading };

    ghost view = { λ r. record { clock = r.clock; line = r.line; commands = r.commands.items } };
}

impl FormReader {
    /// A reader that has read no line.
    pub fn new(alloc: Global) -> FormReader
        ensures { result ≡ at_first }
    {
        FormReader {
            clock: 1_000_000,
            line: 1,
            commands: Vec::new(alloc),
        }
    }

    /// Reads one more line: the first is three dashes, the others are of the body.
    pub fn read(&mut self, alloc: Global, line: &[u8]) -> Result<(), FormRefusal>
        requires { self.old.line < 2 ^ 32 }
        ensures ok { OnOk result (after_line self.old line.now ≡ Some self.new) }
        ensures count { OnOk result (self.new.line ≡ self.old.line + 1) }
        ensures later { (n : ℕ) → result ≡ Err (FormRefusal.Later n) → (n ≡ self.old.line) × (after_line self.old line.now ≡ None) }
    {
        if self.line != 1 {
            return self.read_body(alloc, line);
        }
        if line != b"---".as_slice() {
            return Err(FormRefusal::Later { line: 1 });
        }
        self.line = 2;
        Ok(())
    }

    /// Reads one more line of the body.
    fn read_body(&mut self, alloc: Global, line: &[u8]) -> Result<(), FormRefusal>
        requires { self.old.line < 2 ^ 32 }
        ensures ok { OnOk result (with_line self.old (line_of self.old.clock line.now) ≡ Some self.new) }
        ensures count { OnOk result (self.new.line ≡ self.old.line + 1) }
        ensures later { (n : ℕ) → result ≡ Err (FormRefusal.Later n) → (n ≡ self.old.line) × (with_line self.old (line_of self.old.clock line.now) ≡ None) }
    {
        let Ok(told) = line_of(alloc, self.clock, line) else {
            return Err(FormRefusal::Memory);
        };
        match told {
            None => Err(FormRefusal::Later { line: self.line }),
            Some(Line::Blank) => {
                self.line += 1;
                Ok(())
            }
            Some(Line::Told(command)) => self.put(command),
        }
    }

    /// Puts a command at the end.
    fn put(&mut self, command: Command) -> Result<(), FormRefusal>
        requires { self.old.line < 2 ^ 32 }
        ensures ok { OnOk result (with_command self.old command ≡ Some self.new) }
        ensures count { OnOk result (self.new.line ≡ self.old.line + 1) }
        ensures later { (n : ℕ) → result ≡ Err (FormRefusal.Later n) → (n ≡ self.old.line) × (with_command self.old command ≡ None) }
    {
        if self.commands.len() >= MOST_COMMANDS {
            return Err(FormRefusal::Later { line: self.line });
        }
        let clock = clock_after(self.clock, &command);
        if self.commands.push(command).is_err() {
            return Err(FormRefusal::Memory);
        }
        self.clock = clock;
        self.line += 1;
        Ok(())
    }

    /// The commands of the script, after its last line.
    pub fn finish(self) -> Result<Vec<Command>, FormRefusal>
        ensures ok { IfOk result (λ commands. form_over self [] ≡ Accepted commands.items) }
        ensures later { (n : ℕ) → result ≡ Err (FormRefusal.Later n) → form_over self [] ≡ Later n }
    {
        if self.line == 1 {
            return Err(FormRefusal::Later { line: 1 });
        }
        Ok(self.commands)
    }
}

/// The last clock after a command.
fn clock_after(clock: u64, command: &Command) -> u64
    ensures { result ≡ clock_after clock command.now }
{
    match command {
        Command::Clock { micros, .. } => *micros,
        _ => clock,
    }
}
