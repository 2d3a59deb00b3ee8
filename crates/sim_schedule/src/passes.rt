//! Passes by tablet.
ghost use Rattle.std.specs.Prelude.{OnOk};
ghost use Rattle.txn_data.specs.declared.commands.Commands.{Commands as Plan};
ghost use Rattle.law_schedules.specs.Courses.{PassesMade};
ghost use Rattle.world_core.specs.World.{recorded};
ghost use Rattle.sim_schedule.specs.Stands.{HasPasses, Standing, Went};

use crate::simulation::Simulation;
use docdb_base::Memory;
use docdb_outside::LogStore;
use txn_types::{Config, Mover};

/// Each applier makes one pass more, by tablet.
pub(crate) fn passes<L: LogStore + Drop>(
    simulation: &mut Simulation<L>,
    config: &Config,
) -> Result<(), Memory>
    requires { HasPasses config.now simulation.old.world simulation.old.clocks.items }
    ensures { (plan : Plan) → Standing config.now plan simulation.old.world simulation.old.clocks.items
        → Went config.now plan simulation.old.world simulation.old.clocks.items simulation.new.world simulation.new.clocks.items (OnOk result (PassesMade config.now (recorded simulation.old.world) (recorded simulation.new.world))) }
{
    for tablet in 0..config.tablets {
        simulation.until_told(Mover::Applier(tablet))?;
    }
    Ok(())
}
