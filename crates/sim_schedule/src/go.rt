//! The schedule that a script says.
ghost use Rattle.std.specs.Prelude.{◌≡◌, [], OnOk};
ghost use Rattle.txn_data.specs.declared.commands.Commands.{Commands as Plan};
ghost use Rattle.law_schedules.specs.Courses.{GoCourse};
ghost use Rattle.world_core.specs.World.{recorded};
ghost use Rattle.sim_schedule.specs.Stands.{AppliersEnded, StandIn, Standing, Went};

use crate::sessions::sessions_to_ends;
use crate::simulation::Simulation;
use docdb_base::Memory;
use docdb_outside::LogStore;
use txn_types::{Commands, Config, Mover};

/// Each line moves its mover so often as it says; then each mover to its end, sessions by number and then appliers.
pub(crate) fn go<L: LogStore + Drop>(
    simulation: &mut Simulation<L>,
    config: &Config,
    plan: &Commands,
) -> Result<(), Memory>
    requires stands { Standing config.now plan.now simulation.old.world simulation.old.clocks.items }
    requires first { recorded simulation.old.world ≡ [] }
    ensures { Went config.now plan.now simulation.old.world simulation.old.clocks.items simulation.new.world simulation.new.clocks.items (OnOk result (GoCourse config.now plan.now (recorded simulation.new.world))) }
{
    for line in plan.go.items() {
        simulation.up_to(line.who, line.count)?;
    }
    sessions_to_ends(simulation, plan)?;
    appliers_to_ends(simulation, config)
}

// Moves each applier to its end, by number.
fn appliers_to_ends<L: LogStore + Drop>(
    simulation: &mut Simulation<L>,
    config: &Config,
) -> Result<(), Memory>
    requires { StandIn config.now simulation.old.world simulation.old.clocks.items }
    ensures { (plan : Plan) → Standing config.now plan simulation.old.world simulation.old.clocks.items
        → Went config.now plan simulation.old.world simulation.old.clocks.items simulation.new.world simulation.new.clocks.items (OnOk result (AppliersEnded config.now plan (recorded simulation.old.world) (recorded simulation.new.world))) }
{
    for tablet in 0..config.tablets {
        simulation.to_end(Mover::Applier(tablet))?;
    }
    Ok(())
}
