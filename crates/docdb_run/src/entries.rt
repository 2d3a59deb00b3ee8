//! The entries that a command leaves.
ghost use Rattle.std.specs.Prelude.{◌≡◌, ◌++◌, ◌∷◌, [], ℕ, None, take, IfOk, OnOk, OnErr};
ghost use Rattle.docdb_run.specs.Course.{by};

use docdb_base::{Memory, Seq};
use std::alloc::Global;
use txn_types::{Actor, Command, Entries, Entry, Event, Told, Trace};

/// An entry.
pub fn entry(actor: Actor, reading: Option<u64>, event: Event) -> Entry
    ensures { result ≡ by actor reading event }
{
    Entry {
        actor,
        reading,
        event,
    }
}

/// The entries of a mover's command that has begun: its number among the mover's own, from 1.
pub fn start(alloc: Global, mover: Actor, command: u32, line: Command) -> Result<Entries, Memory>
    ensures { IfOk result (λ entries. entries ≡ by mover None (Event.Start command line) ∷ []) }
{
    let mut entries = Seq::new(alloc);
    entries.push(entry(mover, None, Event::Start { command, line }))?;
    Ok(entries)
}

/// Puts the end of a mover's command at the end.
pub fn tell(entries: &mut Entries, mover: Actor, command: u32, told: Told) -> Result<(), Memory>
    ensures { OnOk result (entries.new ≡ entries.old ++ by mover None (Event.Tell command told) ∷ []) }
{
    entries.push(entry(mover, None, Event::Tell { command, told }))
}

/// Records entries in their order. If memory runs out, the first of them are recorded.
pub fn record_all(trace: &mut Trace, entries: Entries) -> Result<(), Memory>
    ensures ok { OnOk result (trace.new.entries ≡ trace.old.entries ++ entries) }
    ensures memory { OnErr result ((n : ℕ) × (trace.new.entries ≡ trace.old.entries ++ take n entries)) }
{
    for entry in entries.into_items() {
        trace.entries.push(entry)?;
    }
    Ok(())
}
