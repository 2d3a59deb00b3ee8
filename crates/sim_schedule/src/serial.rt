//! The schedule in line order.
ghost use Rattle.std.specs.Prelude.{◌≡◌, [], OnOk};
ghost use Rattle.law_schedules.specs.Courses.{SerialCourse};
ghost use Rattle.world_core.specs.World.{recorded};
ghost use Rattle.sim_schedule.specs.Stands.{Standing, Went};

use crate::passes::passes;
use crate::sessions::sessions_to_ends;
use crate::simulation::Simulation;
use docdb_base::Memory;
use docdb_outside::LogStore;
use txn_types::{Commands, Config, Mover};

/// Commands whole, in line order; then the end of each session; then rounds of passes.
pub(crate) fn serial<L: LogStore + Drop>(
    simulation: &mut Simulation<L>,
    config: &Config,
    plan: &Commands,
) -> Result<(), Memory>
    requires stands { Standing config.now plan.now simulation.old.world simulation.old.clocks.items }
    requires first { recorded simulation.old.world ≡ [] }
    ensures { Went config.now plan.now simulation.old.world simulation.old.clocks.items simulation.new.world simulation.new.clocks.items (OnOk result (SerialCourse config.now plan.now (recorded simulation.new.world))) }
{
    for number in plan.order.items() {
        simulation.until_told(Mover::Session(*number))?;
    }
    sessions_to_ends(simulation, plan)?;
    for _round in 0..config.passes {
        passes(simulation, config)?;
    }
    Ok(())
}
