//! All sessions and appliers of a cluster.
ghost use Rattle.std.specs.Prelude.{◌≡◌, ◌∷◌, ℕ, Bool, true, false, [], Some, is_some, IfSome, IsNone, IfOk, length};

use crate::appliers::Appliers;
use crate::asking::Asking;
use crate::sessions::Sessions;
use docdb_base::Memory;
use mover_seat::{Step, events_are_own};
use std::alloc::Global;
use txn_types::{Commands, Config, Mover, Reply};

/// All sessions and appliers of a cluster. Contracts see what they stand for, `StandsFor`: the cluster, the lines that the
/// sessions were given, and a history.
#[derive(Drop)]
pub struct Movers {
    pub(crate) sessions: Sessions,
    pub(crate) appliers: Appliers,
}

impl Movers {
    ghost use Rattle.txn_data.specs.declared.actor.Actor.{Actor};
    ghost use Rattle.txn_data.specs.declared.entry.Entry.{Entry};
    ghost use Rattle.txn_data.specs.declared.request.Request.{Request};
    ghost use Rattle.txn_types.specs.History.{History, own};
    ghost use Rattle.txn_types.specs.Plan.{IsCluster, IsPlan};
    ghost use Rattle.txn_types.specs.Run.{Asked, flight};
    ghost use Rattle.txn_types.specs.Script.{actor_of};
    ghost use Rattle.session_core.specs.Lines.{is_listed};
    ghost use Rattle.session_core.specs.Turn.{lists};
    ghost use Rattle.mover_chain.specs.NextEvent.{Given, given_by, all_done, has_event, is_left, next_event};
    ghost use Rattle.mover_seat.specs.Stage.{awaited};
    ghost use Rattle.mover_seat.specs.Step.{HearsMemory, IsStep};
    ghost use Rattle.world_movers.specs.Asked.{IsAnswer, IsAsking};
    ghost use Rattle.world_movers.specs.Movers.{StandsFor, awaits_of, takes_lists};

    /// The movers of a cluster in which sessions are to do the lines of a plan, before the first entry.
    pub fn open(alloc: Global, config: &Config, plan: &Commands) -> Result<Movers, Memory>
        requires cluster { IsCluster config.now }
        requires plan { IsPlan config.now plan.now }
        ensures { IfOk result (λ movers. StandsFor config.now (given_by plan.now) [] movers) }
    {
        let mut sessions = Sessions::new(alloc)?;
        for one in plan.sessions.items() {
            sessions.seat(alloc, config, one)?;
        }
        let appliers = Appliers::open(alloc, config)?;
        Ok(Movers { sessions, appliers })
    }

    /// Whether a mover has an event left, an applier's last pass not counted. A mover that is not there has none. It takes no
    /// memory.
    pub fn left(&self, who: Mover) -> bool
        ensures { (config : Config) (given : Given) (h : History) → StandsFor config given h self.now → result ≡ has_event given config (actor_of who) h }
    {
        events_are_own();
        match who {
            Mover::Session(number) => self.sessions.left(number),
            Mover::Applier(tablet) => self.appliers.left(tablet),
        }
    }

    /// Whether a mover has an event left. An applier's last pass counts once no more lines come and each session was told its
    /// last command. A mover that is not there has none. It takes no memory.
    pub fn has_event(&self, who: Mover) -> bool
        ensures { (config : Config) (given : Given) (h : History) → StandsFor config given h self.now → result ≡ is_left (next_event given config (actor_of who) h) }
    {
        events_are_own();
        match who {
            Mover::Session(number) => self.sessions.left(number),
            Mover::Applier(tablet) => self.appliers.has_event(tablet, self.are_done()),
        }
    }

    /// The machine that a mover asked, as long as no reply came, and the place of the entry that asked. It takes no memory.
    pub fn awaits(&self, who: Mover) -> Option<Asking>
        ensures value { result ≡ awaits_of self.now who }
        ensures some { (config : Config) (given : Given) (h : History) → StandsFor config given h self.now → IfSome result (λ asking. IsAsking h (actor_of who) asking) }
        ensures none { (config : Config) (given : Given) (h : History) → StandsFor config given h self.now → IsNone result → is_some (awaited (flight (actor_of who) h)) ≡ false }
        ensures listing { (config : Config) (given : Given) (h : History) (to : Actor) (asked : Request) → StandsFor config given h self.now → flight (actor_of who) h ≡ Asked to asked → lists asked ≡ true → takes_lists self.now who ≡ true }
    {
        match who {
            Mover::Session(number) => self.sessions.awaits(number),
            Mover::Applier(tablet) => self.appliers.awaits(tablet),
        }
    }

    /// A mover takes the reply to what it asked, which the machine's entry has. It hears it by its next entry. It takes no
    /// memory.
    pub fn answered(&mut self, who: Mover, reply: Reply)
        requires awaits { is_some (awaits_of self.old who) ≡ true }
        requires listed { is_listed reply ≡ true → takes_lists self.old who ≡ true }
        ensures { (config : Config) (given : Given) (h : History) (e : Entry) → StandsFor config given h self.old → IsAnswer config h (actor_of who) reply e → StandsFor config given (e ∷ h) self.new }
    {
        match who {
            Mover::Session(number) => self.sessions.answered(number, reply),
            Mover::Applier(tablet) => self.appliers.answered(tablet, reply),
        }
    }

    /// The next entry of a mover, where the machine that it asked ran out of memory and made no entry: it hears out of
    /// memory. It takes no memory.
    pub fn lost(&mut self, who: Mover) -> Step
        requires { is_some (awaits_of self.old who) ≡ true }
        ensures { (config : Config) (given : Given) (h : History) (to : Actor) → StandsFor config given h self.old → awaited (flight (actor_of who) h) ≡ Some to → HearsMemory config (actor_of who) (next_event given config (actor_of who) h) (own (actor_of who) h) to result × StandsFor config given (result.entry ∷ h) self.new }
    {
        events_are_own();
        match who {
            Mover::Session(number) => self.sessions.lost(number),
            Mover::Applier(tablet) => self.appliers.lost(tablet),
        }
    }

    /// The next entry of a mover that waits for no reply, with this reading of its node's clock, in microseconds, where the
    /// entry wants one; nothing where the mover has no event left. The entry comes to stand at this place: so many entries
    /// are before it. It takes no memory: if memory runs out in a command, its next entry tells so.
    pub fn next(&mut self, who: Mover, reading: u64, at: usize) -> Option<Step>
        requires { is_some (awaits_of self.old who) ≡ false }
        ensures some { (config : Config) (given : Given) (h : History) → StandsFor config given h self.old → at ≡ length h → IfSome result (λ step. IsStep config (actor_of who) (next_event given config (actor_of who) h) reading (own (actor_of who) h) (flight (actor_of who) h) step × StandsFor config given (step.entry ∷ h) self.new) }
        ensures none { (config : Config) (given : Given) (h : History) → StandsFor config given h self.old → IsNone result → (is_left (next_event given config (actor_of who) h) ≡ false) × StandsFor config given h self.new }
    {
        events_are_own();
        match who {
            Mover::Session(number) => self.sessions.next(number, reading, at),
            Mover::Applier(tablet) => {
                let done = self.are_done();
                self.appliers.next(tablet, done, at)
            }
        }
    }

    // Whether no more lines come, and each session was told its last command.
    fn are_done(&self) -> bool
        ensures { (config : Config) (given : Given) (h : History) → StandsFor config given h self.now → result ≡ all_done given config h }
    {
        events_are_own();
        self.sessions.are_done()
    }
}
