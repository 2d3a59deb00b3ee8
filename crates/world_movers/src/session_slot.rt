//! A session among the movers.
ghost use Rattle.std.specs.Prelude.{◌≡◌, ◌<◌, ◌+◌, ℕ, Bool, true, false, List, [], ◌∷◌, ◌++◌, Some, is_some, IfSome, IsNone, OnOk, OnErr, length};

use crate::asking::{Asking, place_after};
use docdb_base::Memory;
use mover_seat::{SessionSeat, Step};
use std::alloc::Global;
use txn_types::{Command, Config, Reply};

/// A session among the movers. Contracts see what it stands for, `SessionStands`.
#[derive(Drop)]
pub(crate) struct SessionSlot {
    pub(crate) seat: SessionSeat,
    /// The place of the entry that asked last.
    pub(crate) asked: usize,
    /// It has an event left.
    pub(crate) left: bool,
}

impl SessionSlot {
    ghost use Rattle.txn_data.specs.declared.actor.Actor.{Actor};
    ghost use Rattle.txn_data.specs.declared.actor.Actor.TheVariants.{Session};
    ghost use Rattle.txn_data.specs.declared.command.Command.{Command};
    ghost use Rattle.txn_data.specs.declared.config.Config.{Config};
    ghost use Rattle.txn_data.specs.declared.entry.Entry.{Entry};
    ghost use Rattle.txn_data.specs.declared.request.Request.{Request};
    ghost use Rattle.txn_types.specs.History.{History, own};
    ghost use Rattle.txn_types.specs.Plan.{IsCluster, IsLine, IsSession};
    ghost use Rattle.txn_types.specs.Run.{Asked, flight};
    ghost use Rattle.session_core.specs.Lines.{has_few_places, is_listed};
    ghost use Rattle.session_core.specs.Turn.{lists};
    ghost use Rattle.mover_chain.specs.NextEvent.{is_left};
    ghost use Rattle.mover_seat.specs.NextEvent.{session_event};
    ghost use Rattle.mover_seat.specs.Session.{given_of, is_finished, is_reading};
    ghost use Rattle.mover_seat.specs.Stage.{awaited};
    ghost use Rattle.mover_seat.specs.Step.{HearsMemory, IsStep};
    ghost use Rattle.world_movers.specs.Asked.{IsAnswer, IsAsking};
    ghost use Rattle.world_movers.specs.Slots.{SessionStands, session_asking};

    /// A session that starts, to which lines may be given. It takes no memory.
    pub(crate) fn open(alloc: Global, config: &Config, session: u32) -> SessionSlot
        requires { IsCluster config.now }
        ensures stands { IsSession session → SessionStands config.now session [] false [] result }
        ensures given { given_of result.seat ≡ 0 }
        ensures open { is_finished result.seat ≡ false }
    {
        let seat = SessionSeat::open(alloc, config, session);
        let left = seat.left();
        SessionSlot {
            seat,
            asked: 0,
            left,
        }
    }

    /// Gives it one more line, behind those that it has. If memory runs out, it is as before.
    pub(crate) fn give(&mut self, line: Command) -> Result<(), Memory>
        requires more { given_of self.old.seat < 4000000000 }
        requires places { has_few_places line ≡ true }
        requires open { is_finished self.old.seat ≡ false }
        ensures stands { (config : Config) (i : ℕ) (given : List Command) (h : History) → SessionStands config i given false h self.old → IsLine config line → OnOk result (SessionStands config i (given ++ line ∷ []) false h self.new) }
        ensures memory { (config : Config) (i : ℕ) (given : List Command) (h : History) → SessionStands config i given false h self.old → OnErr result (SessionStands config i given false h self.new) }
        ensures given { OnOk result (given_of self.new.seat ≡ given_of self.old.seat + 1) }
        ensures open { is_finished self.new.seat ≡ false }
    {
        self.seat.give(line)?;
        self.left = self.seat.left();
        Ok(())
    }

    /// No more lines come. It takes no memory.
    pub(crate) fn finish(&mut self)
        ensures { (config : Config) (i : ℕ) (given : List Command) (all : Bool) (h : History) → SessionStands config i given all h self.old → SessionStands config i given true h self.new }
    {
        self.seat.finish();
        self.left = self.seat.left();
    }

    /// The machine that it asked, as long as no reply came, and the place of the entry that asked.
    pub(crate) fn awaits(&self) -> Option<Asking>
        ensures value { result ≡ session_asking self.now }
        ensures some { (config : Config) (i : ℕ) (given : List Command) (all : Bool) (h : History) → SessionStands config i given all h self.now → IfSome result (λ asking. IsAsking h (Session i) asking) }
        ensures none { (config : Config) (i : ℕ) (given : List Command) (all : Bool) (h : History) → SessionStands config i given all h self.now → IsNone result → is_some (awaited (flight (Session i) h)) ≡ false }
        ensures listing { (config : Config) (i : ℕ) (given : List Command) (all : Bool) (h : History) (to : Actor) (asked : Request) → SessionStands config i given all h self.now → flight (Session i) h ≡ Asked to asked → lists asked ≡ true → is_reading self.now.seat ≡ true }
    {
        let to = self.seat.awaits()?;
        Some(Asking { to, at: self.asked })
    }

    /// Takes the reply to what it asked.
    pub(crate) fn heard(&mut self, reply: Reply)
        requires awaits { is_some (session_asking self.old) ≡ true }
        requires listed { is_listed reply ≡ true → is_reading self.old.seat ≡ true }
        ensures stands { (config : Config) (i : ℕ) (given : List Command) (all : Bool) (h : History) (e : Entry) → SessionStands config i given all h self.old → IsAnswer config h (Session i) reply e → SessionStands config i given all (e ∷ h) self.new }
        ensures left { self.new.left ≡ self.old.left }
    {
        self.seat.heard(reply);
    }

    /// Its next entry, where nobody served what it asked: it hears out of memory.
    pub(crate) fn lost(&mut self) -> Step
        requires { is_some (session_asking self.old) ≡ true }
        ensures stands { (config : Config) (i : ℕ) (given : List Command) (all : Bool) (h : History) (to : Actor) → SessionStands config i given all h self.old → awaited (flight (Session i) h) ≡ Some to → HearsMemory config (Session i) (session_event given all config i (own (Session i) h) (flight (Session i) h)) (own (Session i) h) to result × SessionStands config i given all (result.entry ∷ h) self.new }
        ensures left { self.new.left ≡ self.old.left }
    {
        self.seat.lost()
    }

    /// Its next entry, which comes to stand at this place; nothing where it has no event left.
    pub(crate) fn next(&mut self, reading: u64, at: usize) -> Option<Step>
        requires { is_some (session_asking self.old) ≡ false }
        ensures some { (config : Config) (i : ℕ) (given : List Command) (all : Bool) (h : History) → SessionStands config i given all h self.old → at ≡ length h → IfSome result (λ step. IsStep config (Session i) (session_event given all config i (own (Session i) h) (flight (Session i) h)) reading (own (Session i) h) (flight (Session i) h) step × SessionStands config i given all (step.entry ∷ h) self.new) }
        ensures none { (config : Config) (i : ℕ) (given : List Command) (all : Bool) (h : History) → SessionStands config i given all h self.old → IsNone result → (is_left (session_event given all config i (own (Session i) h) (flight (Session i) h)) ≡ false) × SessionStands config i given all h self.new }
        ensures left { IfSome result (λ step. self.old.left ≡ true) }
        ensures same { IsNone result → self.new.left ≡ self.old.left }
    {
        if !self.left {
            return None;
        }
        let step = self.seat.next(reading)?;
        self.left = self.seat.left();
        self.asked = place_after(&step.entry.event, at, self.asked);
        Some(step)
    }
}
