//! A world and the clocks of its nodes.
ghost use Rattle.std.specs.Prelude.{◌≡◌, ◌+◌, ◌^◌, ◌<◌, ℕ, [], true, length, IfOk, OnOk, OnErr};
ghost use Rattle.txn_data.specs.declared.commands.Commands.{Commands as Plan};
ghost use Rattle.txn_data.specs.declared.config.Config.{Config as Cluster};
ghost use Rattle.txn_types.specs.Script.{IsRunnable, actor_of};
ghost use Rattle.law_schedules.specs.Courses.{MovedToEnd, MovedUntilTold, MovedUpTo, is_tell};
ghost use Rattle.law_moves.specs.Moving.{MovedOnce};
ghost use Rattle.mover_chain.specs.NextEvent.{given_by};
ghost use Rattle.world_core.specs.World.{recorded};
ghost use Rattle.world_machines.specs.Stores.{AreStores, spare_of, stores_of};
ghost use Rattle.sim_schedule.specs.Stands.{HasNext, Stand, Standing, Stands, Went};

use docdb_base::{Memory, TryCopy};
use docdb_outside::LogStore;
use std::alloc::{AllocError, Global};
use txn_types::{Commands, Config, Entry, Event, Mover};
use world_core::{Moved, StepRefusal, World};

/// A world, and what the clock of each node reads, in microseconds. Contracts see what it stands for, `Stands`.
#[derive(Drop)]
pub(crate) struct Simulation<L: LogStore> {
    pub world: World<L>,
    pub clocks: Vec<u64>,
}

impl<L: LogStore + Drop> Simulation<L> {
    /// A simulation before the first entry. It takes all stores. If memory runs out, they are as before.
    pub(crate) fn open(
        alloc: Global,
        config: &Config,
        plan: &Commands,
        logs: &mut Vec<L>,
    ) -> Result<Simulation<L>, Memory>
        requires runnable { IsRunnable config.now plan.now }
        requires stores { AreStores config.now L.held logs.old.items }
        ensures stands { IfOk result (λ s. Stands config.now plan.now (stores_of config.now L.held L.faults logs.old.items) (spare_of config.now logs.old.items) s.world s.clocks.items) }
        ensures first { IfOk result (λ s. recorded s.world ≡ []) }
        ensures taken { OnOk result (logs.new.items ≡ []) }
        ensures memory { OnErr result (logs.new.items ≡ logs.old.items) }
    {
        let clocks = config.start_us.try_copy(alloc)?.into_items();
        let world = World::open(alloc, config, plan, logs)?;
        Ok(Simulation { world, clocks })
    }

    /// Makes the next event of a mover, which has one left, and gives its place in the history.
    pub(crate) fn advance(&mut self, who: Mover) -> Result<usize, Memory>
        requires { HasNext self.old.world self.old.clocks.items (actor_of who) }
        ensures place { IfOk result (λ at. at ≡ length (recorded self.old.world)) }
        ensures fits { length (recorded self.old.world) < 2 ^ 64 }
        ensures went { (config : Cluster) (plan : Plan) → Standing config plan self.old.world self.old.clocks.items
            → Went config plan self.old.world self.old.clocks.items self.new.world self.new.clocks.items (OnOk result (MovedOnce (actor_of who) (recorded self.old.world) (recorded self.new.world))) }
    {
        let at = self.world.history().entries.items().len();
        match self.world.step(who, self.clocks.as_slice()) {
            Ok(Moved::Event) => {}
            Ok(Moved::Clock { node, micros }) => self.clocks[node as usize] = micros,
            Err(StepRefusal::Memory) => return Err(AllocError),
            Err(StepRefusal::NotEnabled) => unreachable!(),
        }
        Ok(at)
    }

    /// Moves a mover until it has no event left, its last pass not counted.
    pub(crate) fn to_end(&mut self, who: Mover) -> Result<(), Memory>
        requires { Stand self.old.world self.old.clocks.items }
        ensures { (config : Cluster) (plan : Plan) → Standing config plan self.old.world self.old.clocks.items
            → Went config plan self.old.world self.old.clocks.items self.new.world self.new.clocks.items (OnOk result (MovedToEnd (given_by plan) config (actor_of who) (recorded self.old.world) (recorded self.new.world))) }
    {
        while self.world.left(who) {
            self.advance(who)?;
        }
        Ok(())
    }

    /// Moves a mover so often, or fewer times if it has no event left any more.
    pub(crate) fn up_to(&mut self, who: Mover, most: u32) -> Result<(), Memory>
        requires { Stand self.old.world self.old.clocks.items }
        ensures { (config : Cluster) (plan : Plan) → Standing config plan self.old.world self.old.clocks.items
            → Went config plan self.old.world self.old.clocks.items self.new.world self.new.clocks.items (OnOk result (MovedUpTo (given_by plan) config (actor_of who) most (recorded self.old.world) (recorded self.new.world))) }
    {
        for _move in 0..most {
            if !self.world.left(who) {
                return Ok(());
            }
            self.advance(who)?;
        }
        Ok(())
    }

    /// Moves a mover until it is told what its command came to. It has an event left.
    pub(crate) fn until_told(&mut self, who: Mover) -> Result<(), Memory>
        requires { HasNext self.old.world self.old.clocks.items (actor_of who) }
        ensures { (config : Cluster) (plan : Plan) → Standing config plan self.old.world self.old.clocks.items
            → Went config plan self.old.world self.old.clocks.items self.new.world self.new.clocks.items (OnOk result (MovedUntilTold (actor_of who) (recorded self.old.world) (recorded self.new.world))) }
    {
        loop {
            let at = self.advance(who)?;
            if is_tell(&self.world.history().entries.items()[at]) {
                return Ok(());
            }
        }
    }
}

// Whether an entry tells what a command came to.
fn is_tell(entry: &Entry) -> bool
    ensures { result ≡ is_tell entry.now.event }
{
    matches!(entry.event, Event::Tell { .. })
}
