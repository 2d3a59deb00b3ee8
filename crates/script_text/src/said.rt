//! The commands and moves of the lines so far.
ghost use Rattle.std.specs.List.{AllWithin};
ghost use Rattle.std.specs.List.Sorted.{IsNonDecreasingBy};
ghost use Rattle.std.specs.Prelude.{◌≡◌, ◌++◌, ◌≤◌, ◌<◌, length, take, drop, OnOk};
ghost use Rattle.txn_data.specs.declared.command.Command.{Command as OneCommand};
ghost use Rattle.txn_data.specs.declared.session_plan.SessionPlan.{SessionPlan as Plan};
ghost use Rattle.script_text.specs.Script.{with_told};

use crate::fault::Fault;
use crate::line::Line;
use crate::script_refusal::ScriptRefusal;
use crate::speaking::{is_go, is_passed, line_of};
use crate::why::Why;
use crate::words::words_of;
use docdb_base::{Memory, Seq};
use std::alloc::Global;
use txn_data::{Command, Commands, Config, GoLine, SessionPlan};

/// The commands and moves of the lines so far.
#[derive(Debug, Drop)]
pub struct Said {
    sessions: Vec<SessionPlan>,
    order: Vec<u32>,
    go: Vec<GoLine>,
    // The sessions rise, so that the plan of one is found by halving.
    ghost rising: { IsNonDecreasingBy (λ (p : Plan). p.session) sessions.items },
}

/// The most commands of a script, and the most moves.
const MOST_LINES: usize = 100_000;

/// Where the plan of a session stands, or has to stand.
fn place_of(plans: &[SessionPlan], session: u32) -> usize
    requires { IsNonDecreasingBy (λ (p : Plan). p.session) plans.now }
    ensures within { result ≤ length plans.now }
    ensures before { (told : OneCommand) → with_told session told plans.now
        ≡ take result plans.now ++ with_told session told (drop result plans.now) }
    ensures below { AllWithin (λ (p : Plan). p.session < session) plans.now 0 result }
    ensures at_least { AllWithin (λ (p : Plan). session ≤ p.session) plans.now result (length plans.now) }
{
    plans.partition_point(|plan| plan.session < session)
}

/// Puts a command at the end of its session's.
fn tell(
    alloc: Global,
    plans: &mut Vec<SessionPlan>,
    session: u32,
    command: Command,
) -> Result<(), Memory>
    requires { IsNonDecreasingBy (λ (p : Plan). p.session) plans.old.items }
    ensures told { OnOk result (plans.new.items ≡ with_told session command plans.old.items) }
    ensures rising { IsNonDecreasingBy (λ (p : Plan). p.session) plans.new.items }
{
    let at = place_of(plans.as_slice(), session);
    if at < plans.len() && plans[at].session == session {
        let plan = &mut plans[at];
        return plan.commands.push(command);
    }
    let mut commands = Seq::new(alloc);
    commands.push(command)?;
    plans.insert(at, SessionPlan { session, commands })?;
    Ok(())
}

impl Said {
    ghost use Rattle.txn_types.specs.Plan.{IsCluster};
    ghost use Rattle.script_text.specs.Outcomes.{Gives, Tells, texts};
    ghost use Rattle.script_text.specs.Script.{at_line, is_full, line_after, nothing_said, said_after};
    ghost use Rattle.script_text.specs.Said.{said_of};
    ghost use Rattle.script_text.specs.Words.{words_of};

    /// Nothing is said.
    pub fn nothing(alloc: Global) -> Said
        ensures { said_of result ≡ nothing_said }
    {
        Said {
            sessions: Vec::new(alloc),
            order: Vec::new(alloc),
            go: Vec::new(alloc),
        }
    }

    /// Whether one more such line would be too many.
    fn is_full(&self, words: &[&[u8]]) -> bool
        ensures { result ≡ is_full (said_of self.now) (texts words.now) }
    {
        let lines = if is_go(words) {
            self.go.len()
        } else {
            self.order.len()
        };
        !is_passed(words) && MOST_LINES <= lines
    }

    /// One more line. If memory runs out, the value has no meaning any more, and is to be dropped.
    pub fn put(&mut self, alloc: Global, line: Line) -> Result<(), Memory>
        ensures { OnOk result (said_of self.new ≡ said_after (said_of self.old) line) }
    {
        match line {
            Line::Passed => Ok(()),
            Line::Told { session, command } => {
                tell(alloc, &mut self.sessions, session, command)?;
                Ok(self.order.push(session)?)
            }
            Line::Goes(line) => Ok(self.go.push(line)?),
        }
    }

    /// Reads one more line.
    fn read(
        &mut self,
        alloc: Global,
        config: &Config,
        flags: &[bool],
        words: &[&[u8]],
    ) -> Result<(), Fault>
        requires cluster { IsCluster config.now }
        requires room { length flags.now ≡ 1001 }
        ensures { Gives (λ _. said_of self.new) result
            (line_after config.now flags.now (said_of self.old) (texts words.now)) }
    {
        if self.is_full(words) {
            return Err(Fault::Refused(Why::Many));
        }
        let line = line_of(alloc, config, flags, words)?;
        self.put(alloc, line)?;
        Ok(())
    }

    /// Reads one more line, with this number.
    pub(crate) fn read_line(
        &mut self,
        alloc: Global,
        config: &Config,
        flags: &[bool],
        number: u32,
        line: &[u8],
    ) -> Result<(), ScriptRefusal>
        requires cluster { IsCluster config.now }
        requires room { length flags.now ≡ 1001 }
        ensures { Tells (λ _. said_of self.new) result
            (at_line number (line_after config.now flags.now (said_of self.old) (words_of line.now))) }
    {
        let words = words_of(alloc, line)?;
        match self.read(alloc, config, flags, &words) {
            Ok(()) => Ok(()),
            Err(Fault::Refused(why)) => Err(ScriptRefusal::ScriptRefused { line: number, why }),
            Err(Fault::Memory) => Err(ScriptRefusal::Memory),
        }
    }

    /// The plan.
    pub fn into_commands(self) -> Commands
        ensures { result ≡ said_of self }
    {
        Commands {
            sessions: Seq::of(self.sessions),
            order: Seq::of(self.order),
            go: Seq::of(self.go),
        }
    }
}
