//! The run of a script's commands.
ghost use Rattle.std.specs.Prelude.{◌≡◌, [], ℕ, take, IfOk, OnOk, OnErr};
ghost use Rattle.docdb_run.specs.Form.{IsForm};
ghost use Rattle.docdb_run.specs.Course.{at_first, told_from, pass_entries, all_entries};

use crate::entries::{record_all, start, tell};
use crate::exchange::Exchange;
use crate::world::World;
use docdb_base::{Memory, Seq};
use std::alloc::Global;
use txn_types::{Actor, Command, Entries, Reply, Request, Told, Trace};

/// The applier of the one tablet.
const APPLIER: Actor = Actor::Applier(0);

/// Runs commands of session 1 on tablet 0 and then a last pass: records the entries, and returns what the session is
/// told, in order. If memory runs out, the first of the entries are recorded.
pub fn simulate(alloc: Global, commands: &[Command], trace: &mut Trace) -> Result<Vec<Told>, Memory>
    requires form { IsForm commands.now }
    requires empty { trace.old.entries ≡ [] }
    ensures told { IfOk result (λ tolds. tolds.items ≡ told_from at_first commands.now) }
    ensures entries { OnOk result (trace.new.entries ≡ all_entries commands.now) }
    ensures memory { OnErr result ((n : ℕ) × (trace.new.entries ≡ take n (all_entries commands.now))) }
{
    let mut world = World::new(alloc);
    let mut tolds = Vec::new(alloc);
    for command in commands {
        tolds.push(world.run(command, trace)?)?;
    }
    record_all(trace, last_pass(alloc)?)?;
    Ok(tolds)
}

/// The entries of the last pass, which finds nothing to apply.
fn last_pass(alloc: Global) -> Result<Entries, Memory>
    ensures { IfOk result (λ entries. entries ≡ pass_entries) }
{
    let mut entries = start(alloc, APPLIER, 1, Command::Apply { tablet: 0 })?;
    let listing = Exchange {
        mover: APPLIER,
        own: None,
        served: None,
        asked: Request::ListIntents,
        reply: Reply::Intents(Seq::new(alloc)),
        time: None,
    };
    listing.record(alloc, &mut entries)?;
    let passed = Told::Passed {
        applied: 0,
        cleaned: 0,
        left: 0,
    };
    tell(&mut entries, APPLIER, 1, passed)?;
    Ok(entries)
}
