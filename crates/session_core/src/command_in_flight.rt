//! The command that is in flight.
ghost use Rattle.std.specs.Prelude.{◌≡◌, ℕ, ◌<◌, ◌+◌, ◌^◌, ◌&&◌, not, true, false, None, is_none, IfOk, OnOk, OnErr};
ghost use Rattle.txn_data.specs.declared.config.Config.{Config};
ghost use Rattle.txn_data.specs.declared.actor.Actor.TheVariants.{Session};
ghost use Rattle.txn_data.specs.declared.event.Event.TheVariants.{Start, Hear};
ghost use Rattle.txn_types.specs.Program.{turn};
ghost use Rattle.txn_types.specs.Run.{mover_after, limits_after, is_settling as settles};
ghost use Rattle.txn_types.specs.Session.{Keeps};
ghost use Rattle.session_core.specs.SessionState.{keeps, IsOf, IsNamed, who};
ghost use Rattle.session_core.specs.Lines.{has_few_places, is_listed, writes_line};
ghost use Rattle.session_core.specs.OpenTxn.{written, HaveRoom};
ghost use Rattle.session_core.specs.Turn.{turn_of, is_ask, asks_list, is_wanting};
ghost use Rattle.session_core.specs.Work.{waits, is_reading, is_read, HasLimitRoom};

use crate::session_state::SessionState;
use crate::starting::work_of;
use crate::turn::Turn;
use crate::work::Work;
use docdb_base::{Memory, TryCopy};
use txn_types::{Actor, Command, Reply};

/// The command that is in flight, and what is done for it.
#[derive(Drop)]
pub(crate) struct CommandInFlight {
    pub(crate) line: Command,
    pub(crate) work: Work,
    /// The reading that stands in its first request.
    pub(crate) reading: Option<u64>,
    /// Whether it may still end with out of memory.
    pub(crate) may_lose: bool,
}

impl CommandInFlight {
    ghost use Rattle.session_core.specs.Mover.{between, within};
    ghost use Rattle.session_core.specs.CommandInFlight.{IsSound, limits_under};

    /// A command that starts. A write in the open transaction has room then.
    pub(crate) fn start(
        state: &mut SessionState,
        command: &Command,
    ) -> Result<CommandInFlight, Memory>
        requires serial { state.old.serial < 2 ^ 63 }
        requires written { written state.old.transaction < 2 ^ 32 }
        requires places { has_few_places command.now ≡ true }
        ensures mover { (config : Config) (n : ℕ) → IsOf config state.old → IfOk result (λ u. within config state.old.session (keeps state.old) (n + 1) u ≡ mover_after config (who state.old) (between (keeps state.old) n) None (Start (n + 1) command.now)) }
        ensures sound { IfOk result (λ u. IsSound u) }
        ensures closed { IfOk result (λ u. is_reading u.work ≡ true → is_none state.new.transaction ≡ true) }
        ensures room { IfOk result (λ u. writes_line u.line ≡ true → HaveRoom state.new.transaction) }
        ensures keeps { keeps state.new ≡ keeps state.old }
        ensures named { IsNamed state.old state.new }
    {
        state.make_room(command)?;
        Ok(CommandInFlight {
            line: command.try_copy(state.alloc)?,
            work: work_of(state, command)?,
            reading: None,
            may_lose: true,
        })
    }

    /// Goes on with the reply of the actor that was asked. A list for a read comes only to a read. Out of memory leaves the
    /// limits that were heard.
    pub(crate) fn hear(&mut self, from: Actor, reply: &Reply) -> Result<(), Memory>
        requires sound { IsSound self.old }
        requires asked { waits self.old.work ≡ true }
        requires listed { is_listed reply.now ≡ true → is_read self.old.work ≡ true }
        requires room { HasLimitRoom self.old.work }
        ensures mover { (config : Config) (i : ℕ) (s : Keeps) (n : ℕ) → OnOk result (within config i s n self.new ≡ mover_after config (Session i) (within config i s n self.old) None (Hear from reply.now)) }
        ensures sound { OnOk result (IsSound self.new) }
        ensures line { self.new.line ≡ self.old.line }
        ensures reading { self.new.reading ≡ self.old.reading }
        ensures limits { (s : Keeps) → limits_under s self.new ≡ limits_after (limits_under s self.old) from reply.now }
        ensures wants { OnOk result (is_reading self.new.work ≡ false) }
        ensures room { OnErr result ((self.old.may_lose && not (settles reply.now)) ≡ true) }
    {
        self.work.fix_limit(from, reply);
        let heard = self.work.hear(reply);
        if is_settling(reply) {
            self.may_lose = false;
        }
        heard
    }

    /// What comes next. Where it asks, it is as before, and there is room for a limit that it may hear of.
    pub(crate) fn next(&mut self, state: &mut SessionState) -> Result<Turn, Memory>
        requires sound { IsSound self.old }
        ensures turn { (config : Config) (n : ℕ) → IsOf config state.old → IfOk result (λ next. turn_of next ≡ turn (within config state.old.session (keeps state.old) n self.old).rest) }
        ensures asks { (config : Config) (n : ℕ) → IfOk result (λ next. is_ask next ≡ true → within config state.old.session (keeps state.old) n self.new ≡ within config state.old.session (keeps state.old) n self.old) }
        ensures sound { IfOk result (λ next. is_ask next ≡ true → IsSound self.new) }
        ensures waits { IfOk result (λ next. is_ask next ≡ true → waits self.new.work ≡ true) }
        ensures room { IfOk result (λ next. is_ask next ≡ true → HasLimitRoom self.new.work) }
        ensures lists { IfOk result (λ next. asks_list next ≡ true → is_read self.new.work ≡ true) }
        ensures wants { IfOk result (λ next. is_wanting next ≡ true → (self.new ≡ self.old) × (is_reading self.old.work ≡ true)) }
        ensures line { self.new.line ≡ self.old.line }
        ensures reading { self.new.reading ≡ self.old.reading }
        ensures limits { (s : Keeps) → limits_under s self.new ≡ limits_under s self.old }
        ensures memory { OnErr result (self.old.may_lose ≡ true) }
        ensures keeps { keeps state.new ≡ keeps state.old }
        ensures named { IsNamed state.old state.new }
        ensures fits { HaveRoom state.old.transaction → HaveRoom state.new.transaction }
    {
        match self.work.next(&self.line, &mut state.transaction)? {
            Turn::Ask { to, request } => {
                self.work.make_room()?;
                Ok(Turn::Ask { to, request })
            }
            turn => Ok(turn),
        }
    }
}

/// Whether a reply may have settled something: no out of memory is told after it.
fn is_settling(reply: &Reply) -> bool
    ensures { result ≡ settles reply.now }
{
    matches!(
        reply,
        Reply::Refused(_)
            | Reply::Begun
            | Reply::Written { .. }
            | Reply::SingleDone { .. }
            | Reply::Committed { .. }
            | Reply::AbortedBy { .. }
            | Reply::Gone
            | Reply::Ended
    )
}
