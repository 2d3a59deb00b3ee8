//! The ends of sessions.
ghost use Rattle.std.specs.Prelude.{OnOk};
ghost use Rattle.txn_data.specs.declared.config.Config.{Config as Cluster};
ghost use Rattle.world_core.specs.World.{recorded};
ghost use Rattle.sim_schedule.specs.Stands.{SessionsEnded, StandFor, Standing, Went};

use crate::simulation::Simulation;
use docdb_base::Memory;
use docdb_outside::LogStore;
use txn_types::{Commands, Mover};

/// Moves each session to its end, by number.
pub(crate) fn sessions_to_ends<L: LogStore + Drop>(
    simulation: &mut Simulation<L>,
    plan: &Commands,
) -> Result<(), Memory>
    requires { StandFor plan.now simulation.old.world simulation.old.clocks.items }
    ensures { (config : Cluster) → Standing config plan.now simulation.old.world simulation.old.clocks.items
        → Went config plan.now simulation.old.world simulation.old.clocks.items simulation.new.world simulation.new.clocks.items (OnOk result (SessionsEnded config plan.now (recorded simulation.old.world) (recorded simulation.new.world))) }
{
    for one in plan.sessions.items() {
        simulation.to_end(Mover::Session(one.session))?;
    }
    Ok(())
}
