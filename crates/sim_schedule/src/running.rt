//! A plan is run to its end.
ghost use Rattle.std.specs.Prelude.{◌≡◌, [], OnOk, OnErr};
ghost use Rattle.txn_types.specs.History.{history_of};
ghost use Rattle.txn_types.specs.Script.{IsRunnable};
ghost use Rattle.law_schedules.specs.Courses.{Course};
ghost use Rattle.world_core.specs.World.{recorded};
ghost use Rattle.world_machines.specs.Stores.{AreStores};
ghost use Rattle.sim_schedule.specs.Left.{DidAll, RanOut};
ghost use Rattle.sim_schedule.specs.Stands.{IsOver, Standing, Went};

use crate::drawn::drawn;
use crate::go::go;
use crate::passes::passes;
use crate::serial::serial;
use crate::simulation::Simulation;
use docdb_base::Memory;
use docdb_outside::LogStore;
use std::alloc::Global;
use txn_types::{Commands, Config, Schedule, Trace};

/// Runs a plan to its end on these stores, by the schedule of the cluster, and records it in `trace`. The tablets have the
/// first stores, by their numbers, the status tablets those behind them, and no actor uses the rest. Then all stores are back
/// in `logs`, in their order, also if memory runs out.
pub fn simulate<L: LogStore + Drop>(
    alloc: Global,
    config: &Config,
    plan: &Commands,
    logs: &mut Vec<L>,
    trace: &mut Trace,
) -> Result<(), Memory>
    requires runnable { IsRunnable config.now plan.now }
    requires stores { AreStores config.now L.held logs.old.items }
    requires empty { trace.old.entries ≡ [] }
    ensures done { OnOk result (DidAll config.now plan.now L.held L.faults logs.old.items logs.new.items (history_of trace.new)) }
    ensures memory { OnErr result (RanOut config.now plan.now L.held L.faults logs.old.items logs.new.items (history_of trace.new)) }
{
    let mut simulation = Simulation::open(alloc, config, plan, logs)?;
    let done = run(&mut simulation, alloc, config, plan);
    *trace = simulation.world.close(logs);
    done
}

// All moves that the schedule names, and then the last passes.
fn run<L: LogStore + Drop>(
    simulation: &mut Simulation<L>,
    alloc: Global,
    config: &Config,
    plan: &Commands,
) -> Result<(), Memory>
    requires stands { Standing config.now plan.now simulation.old.world simulation.old.clocks.items }
    requires first { recorded simulation.old.world ≡ [] }
    ensures { Went config.now plan.now simulation.old.world simulation.old.clocks.items simulation.new.world simulation.new.clocks.items (OnOk result (Course config.now plan.now (recorded simulation.new.world))) }
{
    chosen(simulation, alloc, config, plan)?;
    passes(simulation, config)
}

// The moves that the schedule names before the last passes.
fn chosen<L: LogStore + Drop>(
    simulation: &mut Simulation<L>,
    alloc: Global,
    config: &Config,
    plan: &Commands,
) -> Result<(), Memory>
    requires stands { Standing config.now plan.now simulation.old.world simulation.old.clocks.items }
    requires first { recorded simulation.old.world ≡ [] }
    ensures { Went config.now plan.now simulation.old.world simulation.old.clocks.items simulation.new.world simulation.new.clocks.items (OnOk result (IsOver config.now plan.now (recorded simulation.new.world))) }
{
    match config.schedule {
        Schedule::Serial => serial(simulation, config, plan),
        Schedule::Go => go(simulation, config, plan),
        Schedule::Drawn => drawn(simulation, alloc, config, plan),
    }
}
