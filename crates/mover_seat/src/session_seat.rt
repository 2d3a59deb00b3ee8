//! A session with its lines.
ghost use Rattle.std.specs.Prelude.{◌≡◌, ◌<◌, ◌+◌, ℕ, Bool, true, false, List, [], ◌∷◌, ◌++◌, Some, is_some, IfSome, IsNone, OnOk, OnErr};
ghost use Rattle.mover_seat.specs.Lines.{IsCounted};
ghost use Rattle.mover_seat.specs.Stage.{does_fit};

use crate::lines::Lines;
use crate::session_work::{hear, next_of};
use crate::stage::Stage;
use crate::step::Step;
use docdb_base::Memory;
use session_core::SessionCore;
use std::alloc::Global;
use std::mem;
use txn_types::{Actor, Command, Config, Entry, Refusal, Reply, node_of};

/// A session with its lines. Contracts see what it stands for, `StandsFor`: the session, the lines that it was given, whether
/// more may come, its own entries, and the message on its way.
#[derive(Drop)]
pub struct SessionSeat {
    session: u32,
    core: SessionCore,
    lines: Lines,
    stage: Stage,
    ghost fits: { does_fit core stage ≡ true },
    ghost counted: { IsCounted core lines },
}

impl SessionSeat {
    ghost use Rattle.txn_data.specs.declared.actor.Actor.{Actor};
    ghost use Rattle.txn_data.specs.declared.actor.Actor.TheVariants.{Session};
    ghost use Rattle.txn_data.specs.declared.command.Command.{Command};
    ghost use Rattle.txn_data.specs.declared.config.Config.{Config};
    ghost use Rattle.txn_data.specs.declared.request.Request.{Request};
    ghost use Rattle.txn_types.specs.History.{History};
    ghost use Rattle.txn_types.specs.Plan.{IsCluster, IsLine, IsSession};
    ghost use Rattle.txn_types.specs.Run.{Flight, Quiet, Asked, Answered, flight_after};
    ghost use Rattle.session_core.specs.Lines.{has_few_places, is_listed};
    ghost use Rattle.session_core.specs.Turn.{lists};
    ghost use Rattle.mover_chain.specs.NextEvent.{is_left};
    ghost use Rattle.mover_seat.specs.NextEvent.{session_event};
    ghost use Rattle.mover_seat.specs.Session.{StandsFor, given_of, is_finished, is_reading, awaits_of};
    ghost use Rattle.mover_seat.specs.Stage.{awaited};
    ghost use Rattle.mover_seat.specs.Step.{HearsMemory, IsStep};

    /// A session that starts, to which lines may be given. It takes no memory.
    pub fn open(alloc: Global, config: &Config, session: u32) -> SessionSeat
        requires { IsCluster config.now }
        ensures stands { IsSession session → StandsFor config.now session [] false [] Quiet result }
        ensures given { given_of result ≡ 0 }
        ensures open { is_finished result ≡ false }
    {
        let node = node_of(config, Actor::Session(session));
        let status = session % config.status;
        let Ok(core) = SessionCore::open(alloc, session, node, status, config.skew_us) else {
            unreachable!();
        };
        SessionSeat {
            session,
            core,
            lines: Lines::new(alloc),
            stage: Stage::Between,
        }
    }

    /// How many lines it was given. It takes no memory.
    pub fn given(&self) -> u64
        ensures { result ≡ given_of self.now }
    {
        self.lines.given
    }

    /// Gives it one more line, behind those that it has. If memory runs out, it is as before.
    pub fn give(&mut self, line: Command) -> Result<(), Memory>
        requires more { given_of self.old < 4000000000 }
        requires places { has_few_places line ≡ true }
        requires open { is_finished self.old ≡ false }
        ensures stands { (config : Config) (i : ℕ) (given : List Command) (g : History) (f : Flight) → StandsFor config i given false g f self.old → IsLine config line → OnOk result (StandsFor config i (given ++ line ∷ []) false g f self.new) }
        ensures memory { (config : Config) (i : ℕ) (given : List Command) (g : History) (f : Flight) → StandsFor config i given false g f self.old → OnErr result (StandsFor config i given false g f self.new) }
        ensures given { OnOk result (given_of self.new ≡ given_of self.old + 1) }
        ensures same { OnErr result (given_of self.new ≡ given_of self.old) }
        ensures open { is_finished self.new ≡ false }
    {
        self.lines.give(line)
    }

    /// No more lines come. It takes no memory.
    pub fn finish(&mut self)
        ensures stands { (config : Config) (i : ℕ) (given : List Command) (all : Bool) (g : History) (f : Flight) → StandsFor config i given all g f self.old → StandsFor config i given true g f self.new }
        ensures given { given_of self.new ≡ given_of self.old }
        ensures finished { is_finished self.new ≡ true }
    {
        self.lines.finished = true;
    }

    /// Whether it has an event left. It takes no memory.
    pub fn left(&self) -> bool
        ensures { (config : Config) (i : ℕ) (given : List Command) (all : Bool) (g : History) (f : Flight) → StandsFor config i given all g f self.now → result ≡ is_left (session_event given all config i g f) }
    {
        match &self.stage {
            Stage::Between => self.lines.has_next(self.core.is_open()),
            _ => true,
        }
    }

    /// The actor that it asked, as long as no reply came. The request stands in the entry that asked. It takes no memory.
    pub fn awaits(&self) -> Option<Actor>
        ensures value { result ≡ awaits_of self.now }
        ensures flight { (config : Config) (i : ℕ) (given : List Command) (all : Bool) (g : History) (f : Flight) → StandsFor config i given all g f self.now → result ≡ awaited f }
        ensures listing { (config : Config) (i : ℕ) (given : List Command) (all : Bool) (g : History) (to : Actor) (asked : Request) → StandsFor config i given all g (Asked to asked) self.now → lists asked ≡ true → is_reading self.now ≡ true }
    {
        self.stage.awaits()
    }

    /// Whether a read is under way. It takes no memory.
    pub fn reads(&self) -> bool
        ensures { result ≡ is_reading self.now }
    {
        self.core.reads()
    }

    /// Takes the reply to what it asked. It is heard by the next entry. It takes no memory.
    pub fn heard(&mut self, reply: Reply)
        requires awaits { is_some (awaits_of self.old) ≡ true }
        requires listed { is_listed reply ≡ true → is_reading self.old ≡ true }
        ensures stands { (config : Config) (i : ℕ) (given : List Command) (all : Bool) (g : History) (f : Flight) (to : Actor) → StandsFor config i given all g f self.old → awaited f ≡ Some to → StandsFor config i given all g (Answered to reply) self.new }
        ensures left { (config : Config) (i : ℕ) (given : List Command) (all : Bool) (g : History) (f : Flight) (to : Actor) → StandsFor config i given all g f self.old → awaited f ≡ Some to → (is_left (session_event given all config i g f) ≡ true) × (is_left (session_event given all config i g (Answered to reply)) ≡ true) }
        ensures awaits { is_some (awaits_of self.new) ≡ false }
        ensures given { given_of self.new ≡ given_of self.old }
        ensures finished { is_finished self.new ≡ is_finished self.old }
    {
        let Stage::Awaits { to } = &self.stage else {
            unreachable!();
        };
        let from = *to;
        self.stage = Stage::Hears { from, reply };
    }

    /// Its next entry, where nobody served what it asked: it hears out of memory in place of the reply. It takes no memory.
    pub fn lost(&mut self) -> Step
        requires { is_some (awaits_of self.old) ≡ true }
        ensures step { (config : Config) (i : ℕ) (given : List Command) (all : Bool) (g : History) (f : Flight) (to : Actor) → StandsFor config i given all g f self.old → awaited f ≡ Some to → HearsMemory config (Session i) (session_event given all config i g f) g to result × StandsFor config i given all (result.entry ∷ g) Quiet self.new }
        ensures left { (config : Config) (i : ℕ) (given : List Command) (all : Bool) (g : History) (f : Flight) (to : Actor) → StandsFor config i given all g f self.old → awaited f ≡ Some to → is_left (session_event given all config i (result.entry ∷ g) Quiet) ≡ true }
        ensures given { given_of self.new ≡ given_of self.old }
        ensures finished { is_finished self.new ≡ is_finished self.old }
    {
        let Stage::Awaits { to } = &self.stage else {
            unreachable!();
        };
        let made = hear(&mut self.core, *to, Reply::Refused(Refusal::Memory));
        self.stage = made.stage;
        let entry = Entry {
            actor: Actor::Session(self.session),
            reading: made.reading,
            event: made.event,
        };
        Step {
            entry,
            moved: made.moved,
        }
    }

    /// Its next entry, with this reading of its node's clock, in microseconds, where the entry wants one; nothing where it
    /// has no event left. It comes only where no actor is awaited. If memory runs out in a command, its next entry tells so.
    pub fn next(&mut self, reading: u64) -> Option<Step>
        requires { is_some (awaits_of self.old) ≡ false }
        ensures some { (config : Config) (i : ℕ) (given : List Command) (all : Bool) (g : History) (f : Flight) → StandsFor config i given all g f self.old → IfSome result (λ step. IsStep config (Session i) (session_event given all config i g f) reading g f step × StandsFor config i given all (step.entry ∷ g) (flight_after (Session i) f (Session i) step.entry.event) self.new) }
        ensures none { (config : Config) (i : ℕ) (given : List Command) (all : Bool) (g : History) (f : Flight) → StandsFor config i given all g f self.old → IsNone result → (is_left (session_event given all config i g f) ≡ false) × StandsFor config i given all g f self.new }
        ensures given { given_of self.new ≡ given_of self.old }
        ensures finished { is_finished self.new ≡ is_finished self.old }
    {
        let stage = mem::replace(&mut self.stage, Stage::Between);
        let made = next_of(&mut self.core, &mut self.lines, stage, reading)?;
        self.stage = made.stage;
        let entry = Entry {
            actor: Actor::Session(self.session),
            reading: made.reading,
            event: made.event,
        };
        Some(Step {
            entry,
            moved: made.moved,
        })
    }
}
