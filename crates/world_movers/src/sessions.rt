//! All sessions.
ghost use Rattle.std.specs.Prelude.{◌≡◌, ◌<◌, ◌++◌, ◌∷◌, ℕ, Bool, true, false, List, [], Some, None, is_some, IfSome, IsNone, IfOk, OnOk, OnErr, length, count_by};
ghost use Rattle.std.specs.List.{slice_get};
ghost use Rattle.txn_types.specs.Plan.{IsCluster, IsSessionPlan};
ghost use Rattle.world_movers.specs.Slots.{SessionStands};

use crate::asking::Asking;
use crate::session_slot::SessionSlot;
use docdb_base::{Memory, TryCopy};
use mover_seat::Step;
use std::alloc::Global;
use txn_types::{Config, Reply, SessionPlan};

/// All sessions. Contracts see what they stand for, `SessionsStand`.
#[derive(Drop)]
pub(crate) struct Sessions {
    /// By rising number.
    pub(crate) slots: Vec<SessionSlot>,
    /// Where a session stands among them, by its number, 0 to 1,000.
    pub(crate) places: Vec<Option<usize>>,
    /// How many have an event left.
    pub(crate) unfinished: usize,
    /// No more lines come.
    pub(crate) finished: bool,
    ghost numbered: { length places.items ≡ 1001 },
    ghost within: { (i n : ℕ) → slice_get places.items i ≡ Some (Some n) → n < length slots.items },
    ghost counted: { unfinished ≡ count_by (λ slot. slot.left) slots.items },
}

impl Sessions {
    ghost use Rattle.txn_data.specs.declared.actor.Actor.{Actor};
    ghost use Rattle.txn_data.specs.declared.actor.Actor.TheVariants.{Session};
    ghost use Rattle.txn_data.specs.declared.config.Config.{Config};
    ghost use Rattle.txn_data.specs.declared.entry.Entry.{Entry};
    ghost use Rattle.txn_data.specs.declared.request.Request.{Request};
    ghost use Rattle.txn_types.specs.History.{History, own};
    ghost use Rattle.txn_types.specs.Plan.{AreRising};
    ghost use Rattle.txn_types.specs.Run.{Asked, flight};
    ghost use Rattle.session_core.specs.Lines.{is_listed};
    ghost use Rattle.session_core.specs.Turn.{lists};
    ghost use Rattle.mover_chain.specs.NextEvent.{Given, is_left};
    ghost use Rattle.mover_seat.specs.Stage.{awaited};
    ghost use Rattle.mover_seat.specs.Step.{HearsMemory, IsStep};
    ghost use Rattle.world_movers.specs.Asked.{IsAnswer, IsAsking};
    ghost use Rattle.world_movers.specs.Sessions.{SessionsStand, index_of, asking_of, is_reading_of, are_done, next_of};

    /// No session, where no more lines come.
    pub(crate) fn new(alloc: Global) -> Result<Sessions, Memory>
        ensures { (config : Config) → IfOk result (λ sessions. SessionsStand config (record { sessions = []; all = true }) [] sessions) }
    {
        let none: Option<usize> = None;
        Ok(Sessions {
            slots: Vec::new(alloc),
            places: vec![in alloc; none; 1_001]?,
            unfinished: 0,
            finished: true,
        })
    }

    /// Seats a session with these lines, whose number is above those of all that are there. If memory runs out, all is as
    /// before.
    pub(crate) fn seat(
        &mut self,
        alloc: Global,
        config: &Config,
        plan: &SessionPlan,
    ) -> Result<(), Memory>
        requires cluster { IsCluster config.now }
        requires plan { IsSessionPlan config.now plan.now }
        ensures ok { (given : Given) → given.all ≡ true → AreRising (given.sessions ++ plan.now ∷ []) → SessionsStand config.now given [] self.old → OnOk result (SessionsStand config.now (record { sessions = given.sessions ++ plan.now ∷ []; all = true }) [] self.new) }
        ensures memory { (given : Given) → SessionsStand config.now given [] self.old → OnErr result (SessionsStand config.now given [] self.new) }
    {
        let slot = seated(alloc, config, plan)?;
        let left = slot.left;
        let place = self.slots.len();
        self.slots.push(slot)?;
        self.places[plan.session as usize] = Some(place);
        self.unfinished += usize::from(left);
        Ok(())
    }

    /// Whether no more lines come, and each session was told its last command.
    pub(crate) fn are_done(&self) -> bool
        ensures { result ≡ are_done self.now }
    {
        self.finished && self.unfinished == 0
    }

    /// Whether a session has an event left.
    pub(crate) fn left(&self, number: u32) -> bool
        ensures { (config : Config) (given : Given) (h : History) → SessionsStand config given h self.now → result ≡ is_left (next_of given config number h) }
    {
        match self.index_of(number) {
            Some(index) => self.slots[index].left,
            None => false,
        }
    }

    /// The machine that a session asked, as long as no reply came, and the place of the entry that asked.
    pub(crate) fn awaits(&self, number: u32) -> Option<Asking>
        ensures value { result ≡ asking_of self.now number }
        ensures some { (config : Config) (given : Given) (h : History) → SessionsStand config given h self.now → IfSome result (λ asking. IsAsking h (Session number) asking) }
        ensures none { (config : Config) (given : Given) (h : History) → SessionsStand config given h self.now → IsNone result → is_some (awaited (flight (Session number) h)) ≡ false }
        ensures listing { (config : Config) (given : Given) (h : History) (to : Actor) (asked : Request) → SessionsStand config given h self.now → flight (Session number) h ≡ Asked to asked → lists asked ≡ true → is_reading_of self.now number ≡ true }
    {
        let index = self.index_of(number)?;
        self.slots[index].awaits()
    }

    /// A session takes the reply to what it asked.
    pub(crate) fn answered(&mut self, number: u32, reply: Reply)
        requires awaits { is_some (asking_of self.old number) ≡ true }
        requires listed { is_listed reply ≡ true → is_reading_of self.old number ≡ true }
        ensures { (config : Config) (given : Given) (h : History) (e : Entry) → SessionsStand config given h self.old → IsAnswer config h (Session number) reply e → SessionsStand config given (e ∷ h) self.new }
    {
        let Some(index) = self.index_of(number) else {
            unreachable!();
        };
        self.slots[index].heard(reply);
    }

    /// The next entry of a session, where nobody served what it asked: it hears out of memory.
    pub(crate) fn lost(&mut self, number: u32) -> Step
        requires { is_some (asking_of self.old number) ≡ true }
        ensures { (config : Config) (given : Given) (h : History) (to : Actor) → SessionsStand config given h self.old → awaited (flight (Session number) h) ≡ Some to → HearsMemory config (Session number) (next_of given config number h) (own (Session number) h) to result × SessionsStand config given (result.entry ∷ h) self.new }
    {
        let Some(index) = self.index_of(number) else {
            unreachable!();
        };
        self.slots[index].lost()
    }

    /// The next entry of a session, which comes to stand at this place; nothing where it has no event left.
    pub(crate) fn next(&mut self, number: u32, reading: u64, at: usize) -> Option<Step>
        requires { is_some (asking_of self.old number) ≡ false }
        ensures some { (config : Config) (given : Given) (h : History) → SessionsStand config given h self.old → at ≡ length h → IfSome result (λ step. IsStep config (Session number) (next_of given config number h) reading (own (Session number) h) (flight (Session number) h) step × SessionsStand config given (step.entry ∷ h) self.new) }
        ensures none { (config : Config) (given : Given) (h : History) → SessionsStand config given h self.old → IsNone result → (is_left (next_of given config number h) ≡ false) × SessionsStand config given h self.new }
    {
        let index = self.index_of(number)?;
        let step = self.slots[index].next(reading, at)?;
        if !self.slots[index].left {
            self.unfinished -= 1;
        }
        Some(step)
    }

    // Where a session stands among the slots, if it is there.
    fn index_of(&self, number: u32) -> Option<usize>
        ensures value { result ≡ index_of self.now number }
        ensures within { IfSome result (λ index. index < length self.now.slots.items) }
    {
        match self.places.get(number as usize) {
            Some(place) => *place,
            None => None,
        }
    }
}

/// A session with these lines. No more come.
fn seated(alloc: Global, config: &Config, plan: &SessionPlan) -> Result<SessionSlot, Memory>
    requires cluster { IsCluster config.now }
    requires plan { IsSessionPlan config.now plan.now }
    ensures { IfOk result (λ slot. SessionStands config.now plan.now.session plan.now.commands true [] slot) }
{
    let mut slot = SessionSlot::open(alloc, config, plan.session);
    for line in plan.commands.items() {
        slot.give(line.try_copy(alloc)?)?;
    }
    slot.finish();
    Ok(slot)
}
