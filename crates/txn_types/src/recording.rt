//! What the tables name of actors, and how a history is recorded.
ghost use Rattle.std.specs.Prelude.{◌≡◌, ◌≤◌, ◌<◌, ◌^◌, ◌∷◌, OnOk, OnErr};
ghost use Rattle.txn_types.specs.History.{history_of};
ghost use Rattle.txn_types.specs.Program.{refusal_told};
ghost use Rattle.txn_types.specs.Script.{node_of};
ghost use Rattle.txn_types.specs.Session.{txn_id};

use docdb_base::Memory;
use txn_data::{Actor, Config, Entry, Refusal, ToldRefusal, Trace, TxnId};

/// Records an entry: histories are read with the newest entry first. If memory runs out, the trace is as before.
pub fn record(trace: &mut Trace, entry: Entry) -> Result<(), Memory>
    ensures ok { OnOk result (history_of trace.new ≡ entry ∷ history_of trace.old) }
    ensures memory { OnErr result (trace.new.entries ≡ trace.old.entries) }
{
    trace.entries.push(entry)
}

/// The id of the transaction with this serial number in its session.
pub fn id_of(session: u32, serial: u64) -> TxnId
    ensures { result ≡ txn_id session serial }
{
    TxnId {
        number: u128::from(session) * 18_446_744_073_709_551_616 + u128::from(serial),
    }
}

/// The node whose clock an actor reads.
pub fn node_of(config: &Config, actor: Actor) -> u32
    requires { 1 ≤ config.now.nodes }
    ensures { result ≡ node_of config.now actor }
{
    let nodes = config.nodes;
    match actor {
        Actor::Tablet(number) | Actor::Session(number) | Actor::Applier(number) => number % nodes,
        Actor::Status(number) => ((u64::from(number) + 1) % u64::from(nodes)) as u32,
    }
}

/// A refusal as a session is told it, with the actor that gave it.
pub fn told_refusal(by: Actor, refusal: Refusal) -> ToldRefusal
    ensures { result ≡ refusal_told by refusal }
{
    match refusal {
        Refusal::Conflict { other } => ToldRefusal::Conflict { other },
        Refusal::Overlap { at } => ToldRefusal::Overlap { at },
        Refusal::LeaseHeld { until } => ToldRefusal::LeaseHeld { actor: by, until },
        Refusal::ClockFull { at } => ToldRefusal::ClockFull { actor: by, at },
        Refusal::ClockRange { reading } => ToldRefusal::ClockRange { actor: by, reading },
        Refusal::LogFault => ToldRefusal::LogFault { actor: by },
        Refusal::Down { since } => ToldRefusal::Down { actor: by, since },
        Refusal::Memory => ToldRefusal::Memory,
    }
}
