//! One session.
ghost use Rattle.std.specs.Prelude.{◌≡◌, ℕ, ◌≤◌, ◌<◌, ◌+◌, ◌%◌, true, false, Some, None, is_some, is_none, IsOk, IfOk};
ghost use Rattle.session_core.specs.Lines.{has_few_places, is_listed, writes_line};
ghost use Rattle.session_core.specs.OpenTxn.{written, HaveRoom};
ghost use Rattle.session_core.specs.Turn.{is_wanting};
ghost use Rattle.session_core.specs.CommandInFlight.{busy, IsSound, FitsIn};
ghost use Rattle.session_core.specs.Work.{is_reading};
ghost use Rattle.session_core.specs.declared.command_in_flight.CommandInFlight.{CommandInFlight};

use crate::command_in_flight::CommandInFlight;
use crate::session_state::SessionState;
use crate::starting::timed_work;
use crate::turn::Turn;
use crate::work::Work;
use docdb_base::Memory;
use hybrid_time::{HybridTime, at_least};
use std::alloc::Global;
use txn_types::{Actor, Command, Reply, Told, ToldRefusal};

/// One session. Contracts see the mover of the tables that it is, `mover`.
#[derive(Drop)]
pub struct SessionCore {
    node: u32,
    state: SessionState,
    commands: u64,
    in_flight: Option<CommandInFlight>,
    ghost many: { commands ≤ 4000000001 },
    ghost serials: { state.serial + busy in_flight ≤ commands },
    ghost writes: { written state.transaction + busy in_flight ≤ commands },
    ghost sound: { (u : CommandInFlight) → in_flight ≡ Some u → IsSound u },
    ghost fitting: { (u : CommandInFlight) → in_flight ≡ Some u → FitsIn state.transaction u },
}

#[tactic(auto, unfolding(crate::specs::Core::mover))]
impl SessionCore {
    ghost use Rattle.txn_data.specs.declared.config.Config.{Config};
    ghost use Rattle.txn_data.specs.declared.event.Event.TheVariants.{Start, Tell, Hear};
    ghost use Rattle.txn_types.specs.Run.{idle, mover_after};
    ghost use Rattle.session_core.specs.SessionState.{keeps};
    ghost use Rattle.session_core.specs.Mover.{within};
    ghost use Rattle.session_core.specs.Core.{mover, number_of, node_of, status_of, skew_of, session_of, commands_of, IsOf, IsNamed};
    ghost use Rattle.session_core.specs.Core.{is_idle, wants_reading, awaits_reply, reads, Went, Answered, StandsAfter};

    /// A session that starts: its number, its node, the status tablet of its transactions, and the most by which clocks
    /// differ, in microseconds. It takes no memory.
    pub fn open(
        alloc: Global,
        session: u32,
        node: u32,
        status: u32,
        skew_us: u64,
    ) -> Result<SessionCore, Memory>
        requires { skew_us ≤ 10000000 }
        ensures mover { (config : Config) → IfOk result (λ core. mover config core ≡ idle) }
        ensures named { IfOk result (λ core. (number_of core ≡ session) × (node_of core ≡ node) × (status_of core ≡ status) × (skew_of core ≡ skew_us)) }
        ensures of { (config : Config) → status ≡ session % config.status → skew_us ≡ config.skew_us → IfOk result (λ core. IsOf config core) }
        ensures stands { IfOk result (λ core. is_idle core ≡ true) }
        ensures commands { IfOk result (λ core. commands_of core ≡ 0) }
        ensures room { IsOk result }
    {
        let state = SessionState {
            alloc,
            session,
            status,
            skew_us,
            last: HybridTime::ZERO,
            serial: 0,
            transaction: None,
        };
        Ok(SessionCore {
            node,
            state,
            commands: 0,
            in_flight: None,
        })
    }

    /// The node whose readings it wants.
    pub fn node(&self) -> u32
        ensures { result ≡ node_of self.now }
    {
        self.node
    }

    /// How many commands it began.
    pub fn commands(&self) -> u64
        ensures { result ≡ commands_of self.now }
    {
        self.commands
    }

    /// Whether a transaction is open. It takes no memory.
    pub fn is_open(&self) -> bool
        ensures { (config : Config) → result ≡ is_some (mover config self.now).keeps.opened }
    {
        self.state.transaction.is_some()
    }

    /// Whether a read is in flight.
    pub fn reads(&self) -> bool
        ensures { result ≡ reads self.now }
    {
        match &self.in_flight {
            Some(in_flight) => matches!(in_flight.work, Work::Read(..)),
            None => false,
        }
    }

    /// Starts a command between two others, and tells what comes next. It comes at most 4,000,000,001 times. A read has
    /// at most sixteen places.
    pub fn start(&mut self, command: &Command) -> Result<Turn, Memory>
        requires idle { is_idle self.old ≡ true }
        requires many { commands_of self.old < 4000000001 }
        requires places { has_few_places command.now ≡ true }
        ensures turn { (config : Config) → IsOf config self.old → Answered config (session_of self.old) (mover_after config (session_of self.old) (mover config self.old) None (Start (commands_of self.old + 1) command.now)) None (mover config self.new) result }
        ensures stands { StandsAfter self.new result }
        ensures named { IsNamed self.old self.new }
        ensures commands { commands_of self.new ≡ commands_of self.old + 1 }
        ensures node { node_of self.new ≡ node_of self.old }
    {
        self.commands += 1;
        match CommandInFlight::start(&mut self.state, command) {
            Ok(in_flight) => self.go_on(in_flight, None),
            Err(memory) => {
                self.state.lose(command);
                Err(memory)
            }
        }
    }

    /// Goes on with the reading that it wanted, in microseconds, and tells what comes next.
    pub fn given(&mut self, reading: u64) -> Result<Turn, Memory>
        requires { wants_reading self.old ≡ true }
        ensures turn { (config : Config) → IsOf config self.old → Answered config (session_of self.old) (mover config self.old) (Some reading) (mover config self.new) result }
        ensures stands { StandsAfter self.new result }
        ensures asks { IfOk result (λ next. is_wanting next ≡ false) }
        ensures named { IsNamed self.old self.new }
        ensures commands { commands_of self.new ≡ commands_of self.old }
        ensures node { node_of self.new ≡ node_of self.old }
    {
        let Some(mut in_flight) = self.in_flight.take() else {
            unreachable!();
        };
        let now = match at_least(self.state.last, HybridTime::ZERO, reading) {
            Ok(now) => now,
            Err(_) => {
                let actor = Actor::Session(self.state.session);
                let told = Told::Refused(ToldRefusal::ClockRange { actor, reading });
                return Ok(self.tell(in_flight, told));
            }
        };
        match timed_work(&self.state, &in_flight.line, reading, now) {
            Ok(work) => {
                in_flight.work = work;
                self.go_on(in_flight, Some(reading))
            }
            Err(memory) => {
                self.tell(in_flight, Told::Refused(ToldRefusal::Memory));
                Err(memory)
            }
        }
    }

    /// Goes on with the reply of the actor that it asked, and tells what comes next. A list for a read comes only to a
    /// read.
    pub fn hear(&mut self, from: Actor, reply: &Reply) -> Result<Turn, Memory>
        requires asked { awaits_reply self.old ≡ true }
        requires listed { is_listed reply.now ≡ true → reads self.old ≡ true }
        ensures turn { (config : Config) → IsOf config self.old → Answered config (session_of self.old) (mover_after config (session_of self.old) (mover config self.old) None (Hear from reply.now)) None (mover config self.new) result }
        ensures stands { StandsAfter self.new result }
        ensures named { IsNamed self.old self.new }
        ensures commands { commands_of self.new ≡ commands_of self.old }
        ensures node { node_of self.new ≡ node_of self.old }
    {
        let Some(mut in_flight) = self.in_flight.take() else {
            unreachable!();
        };
        match in_flight.hear(from, reply) {
            Ok(()) => self.go_on(in_flight, None),
            Err(memory) => {
                self.tell(in_flight, Told::Refused(ToldRefusal::Memory));
                Err(memory)
            }
        }
    }

    // What comes next in a command. Where it asks, its first request has this reading.
    fn go_on(
        &mut self,
        mut in_flight: CommandInFlight,
        reading: Option<u64>,
    ) -> Result<Turn, Memory>
        requires idle { is_idle self.old ≡ true }
        requires serial { self.old.state.serial < self.old.commands }
        requires writes { written self.old.state.transaction < self.old.commands }
        requires sound { IsSound in_flight }
        requires closed { is_reading in_flight.work ≡ true → is_none self.old.state.transaction ≡ true }
        requires room { writes_line in_flight.line ≡ true → HaveRoom self.old.state.transaction }
        requires range { (micros : ℕ) → reading ≡ Some micros → micros ≤ 4000000000000000 }
        ensures turn { (config : Config) → IsOf config self.old → Went config (session_of self.old) (within config self.old.state.session (keeps self.old.state) self.old.commands in_flight) reading (mover config self.new) result }
        ensures stands { StandsAfter self.new result }
        ensures wants { is_reading in_flight.work ≡ false → IfOk result (λ next. is_wanting next ≡ false) }
        ensures named { IsNamed self.old self.new }
        ensures commands { commands_of self.new ≡ commands_of self.old }
        ensures node { node_of self.new ≡ node_of self.old }
    {
        match in_flight.next(&mut self.state) {
            Ok(Turn::Tell(told)) => Ok(self.tell(in_flight, told)),
            Ok(Turn::Reading) => {
                self.in_flight = Some(in_flight);
                Ok(Turn::Reading)
            }
            Ok(Turn::Ask { to, request }) => {
                in_flight.reading = in_flight.reading.or(reading);
                self.in_flight = Some(in_flight);
                Ok(Turn::Ask { to, request })
            }
            Err(memory) => {
                self.tell(in_flight, Told::Refused(ToldRefusal::Memory));
                Err(memory)
            }
        }
    }

    // The command is told this.
    fn tell(&mut self, in_flight: CommandInFlight, told: Told) -> Turn
        requires idle { is_idle self.old ≡ true }
        requires serial { self.old.state.serial < self.old.commands }
        requires writes { written self.old.state.transaction < self.old.commands }
        requires range { (micros : ℕ) → in_flight.reading ≡ Some micros → micros ≤ 4000000000000000 }
        requires room { writes_line in_flight.line ≡ true → HaveRoom self.old.state.transaction }
        ensures told { result ≡ Turn.Tell told }
        ensures mover { (config : Config) (n : ℕ) → IsOf config self.old → mover config self.new ≡ mover_after config (session_of self.old) (within config self.old.state.session (keeps self.old.state) self.old.commands in_flight) None (Tell n told) }
        ensures idle { is_idle self.new ≡ true }
        ensures named { IsNamed self.old self.new }
        ensures commands { commands_of self.new ≡ commands_of self.old }
        ensures node { node_of self.new ≡ node_of self.old }
    {
        let CommandInFlight {
            line,
            work,
            reading,
            may_lose: _,
        } = in_flight;
        self.state.tell(line, reading, work.into_limits(), &told);
        Turn::Tell(told)
    }
}
