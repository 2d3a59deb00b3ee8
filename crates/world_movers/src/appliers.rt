//! The appliers of all tablets.
ghost use Rattle.std.specs.Prelude.{◌≡◌, ◌≤◌, ◌∷◌, ℕ, Bool, true, false, ◌&&◌, [], Some, is_some, IfSome, IsNone, IfOk, length};

use crate::applier_slot::ApplierSlot;
use crate::asking::Asking;
use docdb_base::Memory;
use mover_seat::Step;
use std::alloc::Global;
use txn_types::{Config, Reply};

/// The appliers of all tablets. Contracts see what they stand for, `AppliersStand`.
#[derive(Drop)]
pub(crate) struct Appliers {
    /// By the number of the tablet.
    pub(crate) slots: Vec<ApplierSlot>,
}

impl Appliers {
    ghost use Rattle.txn_data.specs.declared.actor.Actor.{Actor};
    ghost use Rattle.txn_data.specs.declared.actor.Actor.TheVariants.{Applier};
    ghost use Rattle.txn_data.specs.declared.entry.Entry.{Entry};
    ghost use Rattle.txn_types.specs.History.{History, own};
    ghost use Rattle.txn_types.specs.Plan.{IsCluster};
    ghost use Rattle.txn_types.specs.Run.{flight, mover_at};
    ghost use Rattle.txn_types.specs.Script.{started, passes_counted};
    ghost use Rattle.mover_chain.specs.NextEvent.{is_left, number_of_next};
    ghost use Rattle.mover_seat.specs.Stage.{awaited};
    ghost use Rattle.mover_seat.specs.Step.{HearsMemory, IsStep};
    ghost use Rattle.world_movers.specs.Asked.{IsAnswer, IsAsking};
    ghost use Rattle.world_movers.specs.Appliers.{AppliersStand, asking_of, next_of};

    /// The appliers of a cluster, before the first entry.
    pub(crate) fn open(alloc: Global, config: &Config) -> Result<Appliers, Memory>
        requires { IsCluster config.now }
        ensures { IfOk result (λ appliers. AppliersStand config.now [] appliers) }
    {
        let mut slots = Vec::with_capacity(alloc, config.tablets as usize)?;
        for tablet in 0..config.tablets {
            let slot = ApplierSlot::open(alloc, tablet, config.passes);
            slots.push(slot)?;
        }
        Ok(Appliers { slots })
    }

    /// Whether the applier of a tablet has an event left, the last pass not counted.
    pub(crate) fn left(&self, tablet: u32) -> bool
        ensures { (config : Config) (h : History) (done : Bool) → AppliersStand config h self.now → result ≡ (is_left (next_of done config tablet h) && passes_counted config (Applier tablet) (number_of_next (started (Applier tablet) (own (Applier tablet) h)) (mover_at config (Applier tablet) (own (Applier tablet) h)).line)) }
    {
        match self.slots.get(tablet as usize) {
            Some(slot) => slot.left(),
            None => false,
        }
    }

    /// Whether the applier of a tablet has an event left, where each session was told its last command (`done`) or not.
    pub(crate) fn has_event(&self, tablet: u32, done: bool) -> bool
        ensures { (config : Config) (h : History) → AppliersStand config h self.now → result ≡ is_left (next_of done config tablet h) }
    {
        match self.slots.get(tablet as usize) {
            Some(slot) => slot.has_event(done),
            None => false,
        }
    }

    /// The machine that the applier of a tablet asked, as long as no reply came, and the place of the entry that asked.
    pub(crate) fn awaits(&self, tablet: u32) -> Option<Asking>
        ensures value { result ≡ asking_of self.now tablet }
        ensures some { (config : Config) (h : History) → AppliersStand config h self.now → IfSome result (λ asking. IsAsking h (Applier tablet) asking) }
        ensures none { (config : Config) (h : History) → AppliersStand config h self.now → IsNone result → is_some (awaited (flight (Applier tablet) h)) ≡ false }
    {
        match self.slots.get(tablet as usize) {
            Some(slot) => slot.awaits(),
            None => None,
        }
    }

    /// The applier of a tablet takes the reply to what it asked.
    pub(crate) fn answered(&mut self, tablet: u32, reply: Reply)
        requires { is_some (asking_of self.old tablet) ≡ true }
        ensures { (config : Config) (h : History) (e : Entry) → AppliersStand config h self.old → IsAnswer config h (Applier tablet) reply e → AppliersStand config (e ∷ h) self.new }
    {
        self.slots[tablet as usize].heard(reply);
    }

    /// The next entry of the applier of a tablet, where nobody served what it asked: it hears out of memory.
    pub(crate) fn lost(&mut self, tablet: u32) -> Step
        requires { is_some (asking_of self.old tablet) ≡ true }
        ensures { (config : Config) (h : History) (to : Actor) (done : Bool) → AppliersStand config h self.old → awaited (flight (Applier tablet) h) ≡ Some to → HearsMemory config (Applier tablet) (next_of done config tablet h) (own (Applier tablet) h) to result × AppliersStand config (result.entry ∷ h) self.new }
    {
        self.slots[tablet as usize].lost()
    }

    /// The next entry of the applier of a tablet, which comes to stand at this place, where each session was told its last
    /// command (`done`) or not; nothing where it has no event left.
    pub(crate) fn next(&mut self, tablet: u32, done: bool, at: usize) -> Option<Step>
        requires { is_some (asking_of self.old tablet) ≡ false }
        ensures some { (config : Config) (h : History) → AppliersStand config h self.old → at ≡ length h → IfSome result (λ step. (reading : ℕ) → IsStep config (Applier tablet) (next_of done config tablet h) reading (own (Applier tablet) h) (flight (Applier tablet) h) step × AppliersStand config (step.entry ∷ h) self.new) }
        ensures none { (config : Config) (h : History) → AppliersStand config h self.old → IsNone result → (is_left (next_of done config tablet h) ≡ false) × AppliersStand config h self.new }
    {
        let index = tablet as usize;
        if index >= self.slots.len() {
            return None;
        }
        self.slots[index].next(done, at)
    }
}
