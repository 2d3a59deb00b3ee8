//! The tablets and status tablets of a world.
ghost use Rattle.std.specs.Prelude.{◌≡◌, ◌+◌, ◌≤◌, [], length};
ghost use Rattle.std.specs.Vec.{vec_capacity};

use crate::answered::Answered;
use crate::closing::{put_statuses, put_tablets};
use crate::entries::answered;
use crate::opening::{open_statuses, open_tablets};
use docdb_base::Memory;
use docdb_outside::LogStore;
use regular_records::MapVersions;
use status_tablet::StatusTablet;
use std::alloc::Global;
use std::marker::Model;
use std::mem;
use tablet_core::TabletCore;
use txn_types::{Actor, Config, Machine, Request, Served};

/// How many actions a machine makes at most.
const MOST_ACTIONS: u64 = 1 << 62;

/// The tablets and status tablets of a world, and the stores that no actor uses. Contracts see what they stand for,
/// `StandsFor`: the cluster, what each store held and had counted when it was taken, the spare stores, and the history.
#[derive(Drop)]
pub struct Machines<L: LogStore> {
    /// By number. This is the one place that names what keeps their versions.
    tablets: Vec<TabletCore<MapVersions, L>>,
    /// By number.
    statuses: Vec<StatusTablet<L>>,
    /// The stores that no actor uses, in their order.
    spare: Vec<L>,
    /// Empty, with room for all stores.
    room: Vec<L>,
}

impl<L: LogStore> Model for Machines<L> {
    ghost use Rattle.std.specs.Prelude.{◌≡◌, ◌+◌, ◌≤◌, [], length};
    ghost use Rattle.std.specs.Vec.{vec_capacity};
    ghost use Rattle.world_machines.specs.Machines.{MachinesState};
    ghost use Rattle.std.specs.Coded.{codes};
    ghost use Rattle.tablet_core.specs.declared.tablet_core.TabletCore as core;
    ghost use Rattle.regular_records.specs.declared.map_versions.MapVersions as versions;

    ghost Value = { MachinesState L };

    ghost coded = { Prim.hlevel (codes, core.the_code versions.MapVersions L versions.the_code L.code) };

    ghost view = { λ m. record { tablets = m.tablets.items; statuses = m.statuses.items; spare = m.spare.items } };

    ghost invariant = { λ m. (m.room.items ≡ []) × (length m.tablets.items + length m.statuses.items + length m.spare.items ≤ vec_capacity m.room) };
}

impl<L: LogStore + Drop> Machines<L> {
    ghost use Rattle.std.specs.Prelude.{◌≡◌, ◌+◌, ◌^◌, ℕ, true, List, [], ◌∷◌, Some, None, length, nat_lt, IfOk, OnOk, OnErr};
    ghost use Rattle.txn_data.specs.declared.actor.Actor.{Actor};
    ghost use Rattle.txn_data.specs.declared.config.Config.{Config};
    ghost use Rattle.txn_data.specs.declared.request.Request.{Request};
    ghost use Rattle.txn_types.specs.History.{History, own};
    ghost use Rattle.txn_types.specs.Plan.{IsCluster};
    ghost use Rattle.txn_types.specs.Run.{IsMachine};
    ghost use Rattle.tablet_log.specs.Logged.{Store, AllLogged};
    ghost use Rattle.world_machines.specs.Machines.{MayServe, StandsFor, has_room};
    ghost use Rattle.world_machines.specs.Served.{IsServed, MovesOn};
    ghost use Rattle.world_machines.specs.Stores.{AreStores, spare_of, stores_of};

    /// The machines of a cluster, each on an empty log. They take all stores, in their order: the tablets have the first ones,
    /// the status tablets those behind them, and the rest are spare. If memory runs out, the stores are as before.
    pub fn open(alloc: Global, config: &Config, logs: &mut Vec<L>) -> Result<Machines<L>, Memory>
        requires cluster { IsCluster config.now }
        requires stores { AreStores config.now L.held logs.old.items }
        ensures stands { IfOk result (λ machines. StandsFor config.now (stores_of config.now L.held L.faults logs.old.items) (spare_of config.now logs.old.items) [] machines) }
        ensures taken { OnOk result (logs.new.items ≡ []) }
        ensures memory { OnErr result (logs.new.items ≡ logs.old.items) }
    {
        let machines = (config.tablets + config.status) as usize;
        let mut tablets = Vec::with_capacity(alloc, config.tablets as usize)?;
        let mut statuses = Vec::with_capacity(alloc, config.status as usize)?;
        let mut spare = Vec::with_capacity(alloc, logs.len() - machines)?;
        let mut room = mem::replace(logs, Vec::new(alloc));
        room.reverse();
        open_tablets(alloc, config, &mut room, &mut tablets);
        open_statuses(alloc, config, &mut room, &mut statuses);
        room.reverse();
        spare.append(&mut room).unwrap();
        Ok(Machines {
            tablets,
            statuses,
            spare,
            room,
        })
    }

    /// Whether there is such a machine, and it made fewer than 2^62 actions. It takes no memory.
    pub fn has_room(&self, of: Actor) -> bool
        ensures value { result ≡ has_room self.now of }
        ensures entries { (config : Config) (start : Actor → Store) (spare : List L) (h : History) → StandsFor config start spare h self.now → IsMachine config of → result ≡ nat_lt (length (own of h)) (2 ^ 62) }
    {
        match of {
            Actor::Tablet(number) => match self.tablets.get(number as usize) {
                Some(tablet) => tablet.actions() < MOST_ACTIONS,
                None => false,
            },
            Actor::Status(number) => match self.statuses.get(number as usize) {
                Some(status) => status.actions() < MOST_ACTIONS,
                None => false,
            },
            _ => false,
        }
    }

    /// The machine of actor `by` serves a request of `from`, with this reading of its node's clock, in microseconds. If memory
    /// runs out, all is as before.
    pub fn serve(
        &mut self,
        by: Actor,
        from: Actor,
        request: Request,
        reading: u64,
    ) -> Result<Answered, Memory>
        requires may { MayServe self.old by request }
        requires room { has_room self.old by ≡ true }
        ensures ok { (config : Config) (start : Actor → Store) (spare : List L) (h : History) → StandsFor config start spare h self.old → IfOk result (λ a. IsServed config by from request reading h a.reply a.entry × StandsFor config start spare (a.entry ∷ h) self.new) }
        ensures memory { (config : Config) (start : Actor → Store) (spare : List L) (h : History) → StandsFor config start spare h self.old → OnErr result (StandsFor config start spare h self.new) }
        ensures machines { (other : Actor) (asked : Request) → MayServe self.old other asked → MayServe self.new other asked }
    {
        let served = self.serve_by(by, from, &request, reading);
        answered(by, from, request, reading, served)
    }

    // The machine of actor `by` serves a request of `from`.
    fn serve_by(&mut self, by: Actor, from: Actor, request: &Request, reading: u64) -> Served
        requires may { MayServe self.old by request.now }
        requires room { has_room self.old by ≡ true }
        ensures copy { result.copy ≡ result.reply }
        ensures moves { (config : Config) (start : Actor → Store) (spare : List L) (h : History) → StandsFor config start spare h self.old → MovesOn config start spare h by from request.now reading result.reply result self.new }
        ensures machines { (other : Actor) (asked : Request) → MayServe self.old other asked → MayServe self.new other asked }
    {
        match by {
            Actor::Tablet(number) => {
                self.tablets[number as usize].serve(from, request, Some(reading))
            }
            Actor::Status(number) => {
                self.statuses[number as usize].serve(from, request, Some(reading))
            }
            _ => unreachable!(),
        }
    }

    /// All stores, in their order, the spare ones behind the others. It takes no memory.
    pub fn into_stores(self) -> Vec<L>
        ensures many { (config : Config) (start : Actor → Store) (spare : List L) (h : History) → StandsFor config start spare h self → length result.items ≡ config.tablets + config.status + length spare }
        ensures logged { (config : Config) (start : Actor → Store) (spare : List L) (h : History) → StandsFor config start spare h self → AllLogged config h start (stores_of config L.held L.faults result.items) }
        ensures spare { (config : Config) (start : Actor → Store) (spare : List L) (h : History) → StandsFor config start spare h self → spare_of config result.items ≡ spare }
    {
        let Machines {
            tablets,
            statuses,
            mut spare,
            room,
        } = self;
        let mut stores = room;
        put_tablets(&mut stores, tablets);
        put_statuses(&mut stores, statuses);
        stores.append(&mut spare).unwrap();
        stores
    }
}
