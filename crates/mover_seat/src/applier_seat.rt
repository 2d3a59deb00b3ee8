//! The applier of a tablet.
ghost use Rattle.std.specs.Prelude.{◌≡◌, ◌≤◌, ◌+◌, ◌<◌, ℕ, Bool, true, false, ◌&&◌, [], ◌∷◌, Some, is_some, IfSome, IsNone};
ghost use Rattle.mover_seat.specs.Pass.{does_hold, begins};

use crate::pass_work::{hear, next_of};
use crate::stage::Stage;
use crate::step::Step;
use intent_applier::Pass;
use std::alloc::Global;
use std::mem;
use txn_types::{Actor, Entry, Refusal, Reply};

/// The applier of a tablet. Contracts see what it stands for, `StandsFor`: the tablet, its own entries, and the message on
/// its way.
#[derive(Drop)]
pub struct ApplierSeat {
    alloc: Global,
    tablet: u32,
    /// The passes that it makes beside the sessions. One more follows.
    passes: u32,
    begun: u32,
    pass: Option<Pass>,
    stage: Stage,
    ghost few: { passes ≤ 1000 },
    ghost counted: { begun ≤ passes + 1 },
    ghost holds: { does_hold pass stage ≡ true },
}

impl ApplierSeat {
    ghost use Rattle.txn_data.specs.declared.actor.Actor.{Actor};
    ghost use Rattle.txn_data.specs.declared.actor.Actor.TheVariants.{Applier};
    ghost use Rattle.txn_data.specs.declared.config.Config.{Config};
    ghost use Rattle.txn_types.specs.History.{History};
    ghost use Rattle.txn_types.specs.Run.{Flight, Quiet, Answered, flight_after, mover_at};
    ghost use Rattle.txn_types.specs.Script.{started, passes_counted};
    ghost use Rattle.mover_chain.specs.NextEvent.{is_left, number_of_next};
    ghost use Rattle.mover_seat.specs.NextEvent.{applier_event};
    ghost use Rattle.mover_seat.specs.Applier.{StandsFor, awaits_of};
    ghost use Rattle.mover_seat.specs.Stage.{awaited};
    ghost use Rattle.mover_seat.specs.Step.{HearsMemory, IsStep};

    /// The applier of this tablet, which makes so many passes beside the sessions, and then a last one. It takes no memory.
    pub fn open(alloc: Global, tablet: u32, passes: u32) -> ApplierSeat
        requires { passes ≤ 1000 }
        ensures { (config : Config) → tablet < config.tablets → passes ≡ config.passes → StandsFor config tablet [] Quiet result }
    {
        ApplierSeat {
            alloc,
            tablet,
            passes,
            begun: 0,
            pass: None,
            stage: Stage::Between,
        }
    }

    /// Whether it has an event left, the last pass not counted. It takes no memory.
    pub fn left(&self) -> bool
        ensures { (config : Config) (k : ℕ) (g : History) (f : Flight) (done : Bool) → StandsFor config k g f self.now → result ≡ (is_left (applier_event done config k g f) && passes_counted config (Applier k) (number_of_next (started (Applier k) g) (mover_at config (Applier k) g).line)) }
    {
        match &self.stage {
            Stage::Between => self.begun < self.passes,
            _ => self.begun <= self.passes,
        }
    }

    /// Whether it has an event left, where each session was told its last command (`done`) or not. It takes no memory.
    pub fn has_event(&self, done: bool) -> bool
        ensures { (config : Config) (k : ℕ) (g : History) (f : Flight) → StandsFor config k g f self.now → result ≡ is_left (applier_event done config k g f) }
    {
        match &self.stage {
            Stage::Between => self.begins(done),
            _ => true,
        }
    }

    /// The actor that it asked, as long as no reply came. The request stands in the entry that asked. It takes no memory.
    pub fn awaits(&self) -> Option<Actor>
        ensures value { result ≡ awaits_of self.now }
        ensures flight { (config : Config) (k : ℕ) (g : History) (f : Flight) → StandsFor config k g f self.now → result ≡ awaited f }
    {
        self.stage.awaits()
    }

    /// Takes the reply to what it asked. It is heard by the next entry. It takes no memory.
    pub fn heard(&mut self, reply: Reply)
        requires { is_some (awaits_of self.old) ≡ true }
        ensures stands { (config : Config) (k : ℕ) (g : History) (f : Flight) (to : Actor) → StandsFor config k g f self.old → awaited f ≡ Some to → StandsFor config k g (Answered to reply) self.new }
        ensures awaits { is_some (awaits_of self.new) ≡ false }
    {
        let Stage::Awaits { to } = &self.stage else {
            unreachable!();
        };
        let from = *to;
        self.stage = Stage::Hears { from, reply };
    }

    /// Its next entry, where nobody served what it asked: it hears out of memory in place of the reply. It takes no memory.
    pub fn lost(&mut self) -> Step
        requires { is_some (awaits_of self.old) ≡ true }
        ensures { (config : Config) (k : ℕ) (g : History) (f : Flight) (to : Actor) (done : Bool) → StandsFor config k g f self.old → awaited f ≡ Some to → HearsMemory config (Applier k) (applier_event done config k g f) g to result × StandsFor config k (result.entry ∷ g) Quiet self.new }
    {
        let Stage::Awaits { to } = &self.stage else {
            unreachable!();
        };
        let made = hear(&mut self.pass, *to, Reply::Refused(Refusal::Memory));
        self.stage = made.stage;
        let entry = Entry {
            actor: Actor::Applier(self.tablet),
            reading: made.reading,
            event: made.event,
        };
        Step {
            entry,
            moved: made.moved,
        }
    }

    /// Its next entry, where each session was told its last command (`done`) or not; nothing where it has no event left. It
    /// comes only where no actor is awaited. If memory runs out in a pass, its next entry tells so.
    pub fn next(&mut self, done: bool) -> Option<Step>
        requires { is_some (awaits_of self.old) ≡ false }
        ensures some { (config : Config) (k : ℕ) (g : History) (f : Flight) → StandsFor config k g f self.old → IfSome result (λ step. (reading : ℕ) → IsStep config (Applier k) (applier_event done config k g f) reading g f step × StandsFor config k (step.entry ∷ g) (flight_after (Applier k) f (Applier k) step.entry.event) self.new) }
        ensures none { (config : Config) (k : ℕ) (g : History) (f : Flight) → StandsFor config k g f self.old → IsNone result → (is_left (applier_event done config k g f) ≡ false) × StandsFor config k g f self.new }
    {
        let begins = self.begins(done);
        let stage = mem::replace(&mut self.stage, Stage::Between);
        let begun = &mut self.begun;
        let made = next_of(
            self.alloc,
            self.tablet,
            begins,
            begun,
            &mut self.pass,
            stage,
        )?;
        self.stage = made.stage;
        let entry = Entry {
            actor: Actor::Applier(self.tablet),
            reading: made.reading,
            event: made.event,
        };
        Some(Step {
            entry,
            moved: made.moved,
        })
    }

    // Whether it may begin a pass: one beside the sessions, or the last.
    fn begins(&self, done: bool) -> bool
        ensures { (k : ℕ) → result ≡ begins k self.now.passes self.now.begun done }
    {
        self.begun < self.passes || (self.begun == self.passes && done)
    }
}
