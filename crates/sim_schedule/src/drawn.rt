//! The schedule that is drawn.
ghost use Rattle.std.specs.Prelude.{◌≡◌, [], map, IfOk, OnOk};
ghost use Rattle.txn_types.specs.Script.{actor_of};
ghost use Rattle.law_schedules.specs.Courses.{at_work};
ghost use Rattle.world_core.specs.World.{recorded};
ghost use Rattle.sim_schedule.specs.Stands.{IsDrawn, Standing, Went};

use crate::simulation::Simulation;
use docdb_base::{Generator, Memory};
use docdb_outside::LogStore;
use std::alloc::Global;
use txn_types::{Commands, Config, Mover};

/// While a mover has an event left, one that has is drawn and moved.
pub(crate) fn drawn<L: LogStore + Drop>(
    simulation: &mut Simulation<L>,
    alloc: Global,
    config: &Config,
    plan: &Commands,
) -> Result<(), Memory>
    requires stands { Standing config.now plan.now simulation.old.world simulation.old.clocks.items }
    requires first { recorded simulation.old.world ≡ [] }
    ensures { Went config.now plan.now simulation.old.world simulation.old.clocks.items simulation.new.world simulation.new.clocks.items (OnOk result (IsDrawn config.now plan.now (recorded simulation.new.world))) }
{
    let mut working = at_work(simulation, alloc, config, plan)?;
    let mut generator = Generator::of(config.number);
    while !working.is_empty() {
        let place = generator.draw() as usize % working.len();
        let who = working[place];
        simulation.advance(who)?;
        if !simulation.world.left(who) {
            working.remove(place);
        }
    }
    Ok(())
}

// The movers that have an event left, sessions by number and then appliers.
fn at_work<L: LogStore + Drop>(
    simulation: &Simulation<L>,
    alloc: Global,
    config: &Config,
    plan: &Commands,
) -> Result<Vec<Mover>, Memory>
    requires { Standing config.now plan.now simulation.now.world simulation.now.clocks.items }
    ensures { IfOk result (λ working. map actor_of working.items ≡ at_work config.now plan.now (recorded simulation.now.world)) }
{
    let mut working = Vec::new(alloc);
    for one in plan.sessions.items() {
        let who = Mover::Session(one.session);
        if simulation.world.left(who) {
            working.push(who)?;
        }
    }
    for tablet in 0..config.tablets {
        let who = Mover::Applier(tablet);
        if simulation.world.left(who) {
            working.push(who)?;
        }
    }
    Ok(working)
}
