//! All actors of a cluster over one history.
use docdb_base::{Memory, Seq};
use docdb_outside::LogStore;
use std::alloc::Global;
use std::marker::Model;
use std::mem;
use txn_types::{Commands, Config, MoveAt, Mover, Trace};
use world_actors::{Actors, Moved, StepRefusal};

/// All actors of a cluster over one history. Contracts see what it stands for, `StandsFor`.
#[derive(Drop)]
pub struct World<L: LogStore> {
    alloc: Global,
    trace: Trace,
    actors: Actors<L>,
}

impl<L: LogStore> Model for World<L> {
    ghost use Rattle.std.specs.Coded.{codes};
    ghost use Rattle.txn_types.specs.History.{history_of};
    ghost use Rattle.world_actors.specs.Standing.{StandForSome};
    ghost use Rattle.world_actors.specs.declared.actors.Actors as kept;
    ghost use Rattle.world_core.specs.State.{WorldState};

    ghost Value = { WorldState L };

    ghost coded = { Prim.hlevel (codes, kept.the_code L L.code) };

    ghost view = { λ w. record { trace = w.trace; actors = w.actors } };

    ghost invariant = { λ w. ∥ StandForSome (history_of w.trace) w.actors ∥₁ };
}

impl<L: LogStore + Drop> World<L> {
    ghost use Rattle.std.specs.Prelude.{◌≡◌, ◌≤◌, ◌^◌, List, [], Err, length, IfOk, OnOk, OnErr};
    ghost use Rattle.txn_data.specs.declared.actor.Actor.{Actor};
    ghost use Rattle.txn_data.specs.declared.config.Config.{Config};
    ghost use Rattle.txn_data.specs.declared.request.Request.{Request};
    ghost use Rattle.txn_types.specs.History.{history_of, own};
    ghost use Rattle.txn_types.specs.Plan.{IsCluster, IsPlan};
    ghost use Rattle.txn_types.specs.Run.{Asked, flight};
    ghost use Rattle.txn_types.specs.Script.{actor_of};
    ghost use Rattle.tablet_log.specs.Logged.{Store};
    ghost use Rattle.mover_chain.specs.NextEvent.{Given, given_by, has_event};
    ghost use Rattle.world_machines.specs.Stores.{AreStores, spare_of, stores_of};
    ghost use Rattle.world_actors.specs.Steps.{Steps};
    ghost use Rattle.world_actors.specs.declared.step_refusal.StepRefusal.TheVariants as refusal;
    ghost use Rattle.world_core.specs.Kept.{Keeps};
    ghost use Rattle.world_core.specs.Runs.{HaveReadings, Runs};
    ghost use Rattle.world_core.specs.World.{IsClosed, StandsFor, recorded};

    /// The world of a cluster in which sessions are to do the lines of a plan, before the first entry. It takes all stores:
    /// the tablets have the first ones, by their numbers, the status tablets those behind them, and no actor uses the rest. If
    /// memory runs out, the stores are as before.
    pub fn open(
        alloc: Global,
        config: &Config,
        plan: &Commands,
        logs: &mut Vec<L>,
    ) -> Result<World<L>, Memory>
        requires cluster { IsCluster config.now }
        requires plan { IsPlan config.now plan.now }
        requires stores { AreStores config.now L.held logs.old.items }
        ensures stands { IfOk result (λ world. StandsFor config.now (given_by plan.now) (stores_of config.now L.held L.faults logs.old.items) (spare_of config.now logs.old.items) world) }
        ensures first { IfOk result (λ world. recorded world ≡ []) }
        ensures taken { OnOk result (logs.new.items ≡ []) }
        ensures memory { OnErr result (logs.new.items ≡ logs.old.items) }
    {
        let actors = Actors::open(alloc, config, plan, logs)?;
        Ok(World {
            alloc,
            trace: Trace {
                entries: Seq::new(alloc),
            },
            actors,
        })
    }

    /// Makes the next event of a mover, with this reading of each node's clock, in microseconds, and records it. A mover that
    /// has no event left is not enabled. After a refusal nothing changed.
    pub fn step(&mut self, who: Mover, readings: &[u64]) -> Result<Moved, StepRefusal>
        requires { length readings.now ≡ self.old.actors.config.nodes }
        ensures cluster { self.new.actors.config ≡ self.old.actors.config }
        ensures refused { OnErr result (self.new ≡ self.old) }
        ensures stands { (config : Config) (given : Given) (start : Actor → Store) (spare : List L) → StandsFor config given start spare self.old → StandsFor config given start spare self.new }
        ensures steps { (config : Config) (given : Given) (start : Actor → Store) (spare : List L) → StandsFor config given start spare self.old → Steps given config readings.now (actor_of who) (recorded self.old) (recorded self.new) result }
        ensures full { (config : Config) (given : Given) (start : Actor → Store) (spare : List L) (by : Actor) (asked : Request) → StandsFor config given start spare self.old → flight (actor_of who) (recorded self.old) ≡ Asked by asked → 2 ^ 62 ≤ length (own by (recorded self.old)) → result ≡ Err refusal.Memory }
        ensures keeps { (config : Config) (given : Given) (start : Actor → Store) (spare : List L) → StandsFor config given start spare self.old → Keeps config given (recorded self.new) }
    {
        let entries = mem::replace(&mut self.trace.entries, Seq::new(self.alloc));
        let mut entries = entries.into_items();
        let moved = self.actors.step(self.alloc, &mut entries, who, readings);
        self.trace.entries = Seq::of(entries);
        moved
    }

    /// Makes the moves of a list, one after another, up to the first that is refused. Those before it stand.
    pub fn run(&mut self, list: &[MoveAt]) -> Result<(), StepRefusal>
        requires { HaveReadings self.old.actors.config.nodes list.now }
        ensures cluster { self.new.actors.config ≡ self.old.actors.config }
        ensures stands { (config : Config) (given : Given) (start : Actor → Store) (spare : List L) → StandsFor config given start spare self.old → StandsFor config given start spare self.new }
        ensures runs { (config : Config) (given : Given) (start : Actor → Store) (spare : List L) → StandsFor config given start spare self.old → Runs given config list.now (recorded self.old) (recorded self.new) result }
        ensures keeps { (config : Config) (given : Given) (start : Actor → Store) (spare : List L) → StandsFor config given start spare self.old → Keeps config given (recorded self.new) }
    {
        for one in list {
            self.step(one.who, one.readings.items())?;
        }
        Ok(())
    }

    /// What was recorded, the oldest entry first. It takes no memory.
    pub fn history(&self) -> &Trace
        ensures value { history_of result.now ≡ recorded self.now }
        ensures keeps { (config : Config) (given : Given) (start : Actor → Store) (spare : List L) → StandsFor config given start spare self.now → Keeps config given (recorded self.now) }
    {
        &self.trace
    }

    /// Whether a mover has an event left, an applier's last pass not counted. It takes no memory.
    pub fn left(&self, who: Mover) -> bool
        ensures { (config : Config) (given : Given) (start : Actor → Store) (spare : List L) → StandsFor config given start spare self.now → result ≡ has_event given config (actor_of who) (recorded self.now) }
    {
        self.actors.left(who)
    }

    /// Puts all stores into an empty list, in their order, and gives what was recorded. It takes no memory.
    pub fn close(self, logs: &mut Vec<L>) -> Trace
        requires { logs.old.items ≡ [] }
        ensures { (config : Config) (given : Given) (start : Actor → Store) (spare : List L) → StandsFor config given start spare self → IsClosed config L.held L.faults given start spare (recorded self) (history_of result) logs.new.items }
    {
        let World { trace, actors, .. } = self;
        *logs = actors.into_stores();
        trace
    }
}
