//! The actors of a cluster, without the history.
ghost use Rattle.std.specs.Prelude.{◌≡◌, true, Some, is_some};
ghost use Rattle.txn_types.specs.Script.{actor_of};
ghost use Rattle.world_actors.specs.Standing.{asked_at};

use crate::step_refusal::StepRefusal;
use docdb_base::{Memory, TryCopy};
use docdb_outside::LogStore;
use std::alloc::Global;
use std::marker::Model;
use txn_types::{Actor, Commands, Config, Entry, Event, Mover, Request, node_of};
use world_machines::{Answered, Machines};
use world_movers::{Asking, Moved, Movers};

/// The movers and machines of a cluster, without the history. Contracts see what they stand for, `AreStanding`: the cluster, the
/// lines that the sessions were given, what each store held and had counted when it was taken, and the history that the caller
/// keeps.
#[derive(Drop)]
pub struct Actors<L: LogStore> {
    config: Config,
    movers: Movers,
    machines: Machines<L>,
}

impl<L: LogStore> Model for Actors<L> {
    ghost use Rattle.std.specs.Coded.{codes};
    ghost use Rattle.world_actors.specs.State.{ActorsState};
    ghost use Rattle.world_machines.specs.declared.machines.Machines as kept;
    ghost use Rattle.world_movers.specs.contracts.movers.Movers as seats;

    ghost Value = { ActorsState L };

    ghost coded = { Prim.hlevel (codes, seats.the_row.coded, kept.the_code L L.code) };

    ghost view = { λ a. record { config = a.config; movers = a.movers; machines = a.machines } };
}

impl<L: LogStore + Drop> Actors<L> {
    ghost use Rattle.std.specs.Prelude.{◌≡◌, ◌+◌, ℕ, List, [], reverse, length, IfOk, OnOk, OnErr};
    ghost use Rattle.txn_data.specs.declared.actor.Actor.{Actor};
    ghost use Rattle.txn_data.specs.declared.config.Config.{Config};
    ghost use Rattle.txn_types.specs.History.{History};
    ghost use Rattle.txn_types.specs.Plan.{IsCluster, IsPlan};
    ghost use Rattle.txn_types.specs.Script.{actor_of};
    ghost use Rattle.tablet_log.specs.Logged.{Store, AllLogged};
    ghost use Rattle.mover_chain.specs.NextEvent.{Given, given_by, has_event};
    ghost use Rattle.world_machines.specs.Stores.{AreStores, spare_of, stores_of};
    ghost use Rattle.world_actors.specs.Standing.{AreStanding, Awaits, AwaitsNone, HasEvent, StandForSome, StepsOn};

    /// The actors of a cluster in which sessions are to do the lines of a plan, before the first entry. They take all stores:
    /// the tablets have the first ones, by their numbers, the status tablets those behind them, and no actor uses the rest. If
    /// memory runs out, the stores are as before.
    pub fn open(
        alloc: Global,
        config: &Config,
        plan: &Commands,
        logs: &mut Vec<L>,
    ) -> Result<Actors<L>, Memory>
        requires cluster { IsCluster config.now }
        requires plan { IsPlan config.now plan.now }
        requires stores { AreStores config.now L.held logs.old.items }
        ensures stands { IfOk result (λ actors. AreStanding config.now (given_by plan.now) (stores_of config.now L.held L.faults logs.old.items) (spare_of config.now logs.old.items) [] actors) }
        ensures taken { OnOk result (logs.new.items ≡ []) }
        ensures memory { OnErr result (logs.new.items ≡ logs.old.items) }
    {
        let copy = config.try_copy(alloc)?;
        let movers = Movers::open(alloc, config, plan)?;
        let machines = Machines::open(alloc, config, logs)?;
        Ok(Actors {
            config: copy,
            movers,
            machines,
        })
    }

    /// Whether a mover has an event left, an applier's last pass not counted. It takes no memory.
    pub fn left(&self, who: Mover) -> bool
        ensures { (config : Config) (given : Given) (start : Actor → Store) (spare : List L) (h : History) → AreStanding config given start spare h self.now → result ≡ has_event given config (actor_of who) h }
    {
        self.movers.left(who)
    }

    /// All stores, in their order, those that no actor uses behind the others. It takes no memory.
    pub fn into_stores(self) -> Vec<L>
        ensures many { (config : Config) (given : Given) (start : Actor → Store) (spare : List L) (h : History) → AreStanding config given start spare h self → length result.items ≡ config.tablets + config.status + length spare }
        ensures logged { (config : Config) (given : Given) (start : Actor → Store) (spare : List L) (h : History) → AreStanding config given start spare h self → AllLogged config h start (stores_of config L.held L.faults result.items) }
        ensures spare { (config : Config) (given : Given) (start : Actor → Store) (spare : List L) (h : History) → AreStanding config given start spare h self → spare_of config result.items ≡ spare }
    {
        self.machines.into_stores()
    }

    /// Makes the next event of a mover, with these readings of the nodes' clocks, in microseconds, and records it behind
    /// `entries`. A mover that has no event left is not enabled. After a refusal nothing changed.
    pub fn step(
        &mut self,
        alloc: Global,
        entries: &mut Vec<Entry>,
        who: Mover,
        readings: &[u64],
    ) -> Result<Moved, StepRefusal>
        requires stand { ∥ StandForSome (reverse entries.old.items) self.old ∥₁ }
        requires readings { length readings.now ≡ self.old.config.nodes }
        ensures cluster { self.new.config ≡ self.old.config }
        ensures refused { OnErr result ((self.new ≡ self.old) × (entries.new.items ≡ entries.old.items)) }
        ensures steps { (config : Config) (given : Given) (start : Actor → Store) (spare : List L) → AreStanding config given start spare (reverse entries.old.items) self.old → StepsOn config given start spare readings.now (actor_of who) (reverse entries.old.items) (reverse entries.new.items) result self.new }
    {
        if !self.movers.has_event(who) {
            return Err(StepRefusal::NotEnabled);
        }
        match self.movers.awaits(who) {
            Some(asking) => self.ask(alloc, entries, who, asking, readings),
            None => self.go_on(entries, who, readings),
        }
    }

    // The mover makes its next entry.
    fn go_on(
        &mut self,
        entries: &mut Vec<Entry>,
        who: Mover,
        readings: &[u64],
    ) -> Result<Moved, StepRefusal>
        requires stand { ∥ StandForSome (reverse entries.old.items) self.old ∥₁ }
        requires readings { length readings.now ≡ self.old.config.nodes }
        requires left { HasEvent (reverse entries.old.items) self.old.movers who }
        requires awaits { AwaitsNone (reverse entries.old.items) self.old.movers who }
        ensures cluster { self.new.config ≡ self.old.config }
        ensures refused { OnErr result ((self.new ≡ self.old) × (entries.new.items ≡ entries.old.items)) }
        ensures steps { (config : Config) (given : Given) (start : Actor → Store) (spare : List L) → AreStanding config given start spare (reverse entries.old.items) self.old → StepsOn config given start spare readings.now (actor_of who) (reverse entries.old.items) (reverse entries.new.items) result self.new }
    {
        entries.reserve(1)?;
        let reading = readings[node_of(&self.config, actor_of(who)) as usize];
        let Some(step) = self.movers.next(who, reading, entries.len()) else {
            unreachable!();
        };
        entries.push_reserved(step.entry);
        Ok(step.moved)
    }

    // The machine that was asked serves the request. If it runs out of memory, the mover hears so.
    fn ask(
        &mut self,
        alloc: Global,
        entries: &mut Vec<Entry>,
        who: Mover,
        asking: Asking,
        readings: &[u64],
    ) -> Result<Moved, StepRefusal>
        requires stand { ∥ StandForSome (reverse entries.old.items) self.old ∥₁ }
        requires readings { length readings.now ≡ self.old.config.nodes }
        requires left { HasEvent (reverse entries.old.items) self.old.movers who }
        requires awaits { Awaits (reverse entries.old.items) self.old.movers who asking }
        ensures cluster { self.new.config ≡ self.old.config }
        ensures refused { OnErr result ((self.new ≡ self.old) × (entries.new.items ≡ entries.old.items)) }
        ensures steps { (config : Config) (given : Given) (start : Actor → Store) (spare : List L) → AreStanding config given start spare (reverse entries.old.items) self.old → StepsOn config given start spare readings.now (actor_of who) (reverse entries.old.items) (reverse entries.new.items) result self.new }
    {
        let request = request_at(entries, asking.at).try_copy(alloc)?;
        if !self.machines.has_room(asking.to) {
            return Err(StepRefusal::Memory);
        }
        entries.reserve(1)?;
        let reading = readings[node_of(&self.config, asking.to) as usize];
        match self
            .machines
            .serve(asking.to, actor_of(who), request, reading)
        {
            Ok(Answered { reply, entry }) => {
                self.movers.answered(who, reply);
                entries.push_reserved(entry);
                Ok(Moved::Event)
            }
            Err(_) => {
                let step = self.movers.lost(who);
                entries.push_reserved(step.entry);
                Ok(step.moved)
            }
        }
    }
}

// The actor that a mover is.
fn actor_of(who: Mover) -> Actor
    ensures { result ≡ actor_of who }
{
    match who {
        Mover::Session(number) => Actor::Session(number),
        Mover::Applier(tablet) => Actor::Applier(tablet),
    }
}

// The request that the entry at this place asked.
fn request_at(entries: &[Entry], at: usize) -> &Request
    requires { is_some (asked_at entries.now at) ≡ true }
    ensures { asked_at entries.now at ≡ Some result.now }
{
    match &entries[at].event {
        Event::Ask { request, .. } => request,
        _ => unreachable!(),
    }
}
