//! An applier among the movers.
ghost use Rattle.std.specs.Prelude.{◌≡◌, ◌<◌, ◌≤◌, ℕ, Bool, true, false, ◌&&◌, [], ◌∷◌, Some, is_some, IfSome, IsNone, length};

use crate::asking::{Asking, place_after};
use mover_seat::{ApplierSeat, Step};
use std::alloc::Global;
use txn_types::Reply;

/// An applier among the movers. Contracts see what it stands for, `ApplierStands`.
#[derive(Drop)]
pub(crate) struct ApplierSlot {
    pub(crate) seat: ApplierSeat,
    /// The place of the entry that asked last.
    pub(crate) asked: usize,
}

impl ApplierSlot {
    ghost use Rattle.txn_data.specs.declared.actor.Actor.{Actor};
    ghost use Rattle.txn_data.specs.declared.actor.Actor.TheVariants.{Applier};
    ghost use Rattle.txn_data.specs.declared.config.Config.{Config};
    ghost use Rattle.txn_data.specs.declared.entry.Entry.{Entry};
    ghost use Rattle.txn_types.specs.History.{History, own};
    ghost use Rattle.txn_types.specs.Run.{flight, mover_at};
    ghost use Rattle.txn_types.specs.Script.{started, passes_counted};
    ghost use Rattle.mover_chain.specs.NextEvent.{is_left, number_of_next};
    ghost use Rattle.mover_seat.specs.NextEvent.{applier_event};
    ghost use Rattle.mover_seat.specs.Stage.{awaited};
    ghost use Rattle.mover_seat.specs.Step.{HearsMemory, IsStep};
    ghost use Rattle.world_movers.specs.Asked.{IsAnswer, IsAsking};
    ghost use Rattle.world_movers.specs.Slots.{ApplierStands, applier_asking};

    /// The applier of this tablet, which makes so many passes beside the sessions, and then a last one. It takes no memory.
    pub(crate) fn open(alloc: Global, tablet: u32, passes: u32) -> ApplierSlot
        requires { passes ≤ 1000 }
        ensures { (config : Config) → tablet < config.tablets → passes ≡ config.passes → ApplierStands config tablet [] result }
    {
        ApplierSlot {
            seat: ApplierSeat::open(alloc, tablet, passes),
            asked: 0,
        }
    }

    /// Whether it has an event left, the last pass not counted.
    pub(crate) fn left(&self) -> bool
        ensures { (config : Config) (k : ℕ) (h : History) (done : Bool) → ApplierStands config k h self.now → result ≡ (is_left (applier_event done config k (own (Applier k) h) (flight (Applier k) h)) && passes_counted config (Applier k) (number_of_next (started (Applier k) (own (Applier k) h)) (mover_at config (Applier k) (own (Applier k) h)).line)) }
    {
        self.seat.left()
    }

    /// Whether it has an event left, where each session was told its last command (`done`) or not.
    pub(crate) fn has_event(&self, done: bool) -> bool
        ensures { (config : Config) (k : ℕ) (h : History) → ApplierStands config k h self.now → result ≡ is_left (applier_event done config k (own (Applier k) h) (flight (Applier k) h)) }
    {
        self.seat.has_event(done)
    }

    /// The machine that it asked, as long as no reply came, and the place of the entry that asked.
    pub(crate) fn awaits(&self) -> Option<Asking>
        ensures value { result ≡ applier_asking self.now }
        ensures some { (config : Config) (k : ℕ) (h : History) → ApplierStands config k h self.now → IfSome result (λ asking. IsAsking h (Applier k) asking) }
        ensures none { (config : Config) (k : ℕ) (h : History) → ApplierStands config k h self.now → IsNone result → is_some (awaited (flight (Applier k) h)) ≡ false }
    {
        let to = self.seat.awaits()?;
        Some(Asking { to, at: self.asked })
    }

    /// Takes the reply to what it asked.
    pub(crate) fn heard(&mut self, reply: Reply)
        requires { is_some (applier_asking self.old) ≡ true }
        ensures { (config : Config) (k : ℕ) (h : History) (e : Entry) → ApplierStands config k h self.old → IsAnswer config h (Applier k) reply e → ApplierStands config k (e ∷ h) self.new }
    {
        self.seat.heard(reply);
    }

    /// Its next entry, where nobody served what it asked: it hears out of memory.
    pub(crate) fn lost(&mut self) -> Step
        requires { is_some (applier_asking self.old) ≡ true }
        ensures { (config : Config) (k : ℕ) (h : History) (to : Actor) (done : Bool) → ApplierStands config k h self.old → awaited (flight (Applier k) h) ≡ Some to → HearsMemory config (Applier k) (applier_event done config k (own (Applier k) h) (flight (Applier k) h)) (own (Applier k) h) to result × ApplierStands config k (result.entry ∷ h) self.new }
    {
        self.seat.lost()
    }

    /// Its next entry, which comes to stand at this place, where each session was told its last command (`done`) or not;
    /// nothing where it has no event left.
    pub(crate) fn next(&mut self, done: bool, at: usize) -> Option<Step>
        requires { is_some (applier_asking self.old) ≡ false }
        ensures some { (config : Config) (k : ℕ) (h : History) → ApplierStands config k h self.old → at ≡ length h → IfSome result (λ step. (reading : ℕ) → IsStep config (Applier k) (applier_event done config k (own (Applier k) h) (flight (Applier k) h)) reading (own (Applier k) h) (flight (Applier k) h) step × ApplierStands config k (step.entry ∷ h) self.new) }
        ensures none { (config : Config) (k : ℕ) (h : History) → ApplierStands config k h self.old → IsNone result → (is_left (applier_event done config k (own (Applier k) h) (flight (Applier k) h)) ≡ false) × ApplierStands config k h self.new }
    {
        let step = self.seat.next(done)?;
        self.asked = place_after(&step.entry.event, at, self.asked);
        Some(step)
    }
}
