//! Why a command was not done.
use crate::actor::Actor;
use crate::txn_id::TxnId;
use doc_path::Path;
use docdb_base::{Memory, TryCopy};
use hybrid_time::HybridTime;
use std::alloc::Global;
use std::error::Error;
use std::fmt;

/// Why a command was not done.
#[derive(Debug, Drop)]
pub enum ToldRefusal {
    Conflict { other: TxnId },
    Overlap { at: HybridTime },
    Aborted { by: TxnId },
    Restart { at: HybridTime, path: Path },
    LeaseHeld { actor: Actor, until: u64 },
    ClockFull { actor: Actor, at: HybridTime },
    ClockRange { actor: Actor, reading: u64 },
    LogFault { actor: Actor },
    Down { actor: Actor, since: u64 },
    NoTxn,
    TxnOpen,
    InDoubt,
    Memory,
}

impl TryCopy for ToldRefusal {
    fn try_copy(&self, alloc: Global) -> Result<ToldRefusal, Memory> {
        match self {
            ToldRefusal::Conflict { other } => Ok(ToldRefusal::Conflict { other: *other }),
            ToldRefusal::Overlap { at } => Ok(ToldRefusal::Overlap { at: *at }),
            ToldRefusal::Aborted { by } => Ok(ToldRefusal::Aborted { by: *by }),
            ToldRefusal::Restart { at, path } => Ok(ToldRefusal::Restart {
                at: *at,
                path: path.try_copy(alloc)?,
            }),
            ToldRefusal::LeaseHeld { actor, until } => Ok(ToldRefusal::LeaseHeld {
                actor: *actor,
                until: *until,
            }),
            ToldRefusal::ClockFull { actor, at } => Ok(ToldRefusal::ClockFull {
                actor: *actor,
                at: *at,
            }),
            ToldRefusal::ClockRange { actor, reading } => Ok(ToldRefusal::ClockRange {
                actor: *actor,
                reading: *reading,
            }),
            ToldRefusal::LogFault { actor } => Ok(ToldRefusal::LogFault { actor: *actor }),
            ToldRefusal::Down { actor, since } => Ok(ToldRefusal::Down {
                actor: *actor,
                since: *since,
            }),
            ToldRefusal::NoTxn => Ok(ToldRefusal::NoTxn),
            ToldRefusal::TxnOpen => Ok(ToldRefusal::TxnOpen),
            ToldRefusal::InDoubt => Ok(ToldRefusal::InDoubt),
            ToldRefusal::Memory => Ok(ToldRefusal::Memory),
        }
    }
}

impl fmt::Display for ToldRefusal {
    fn fmt<W: fmt::Write>(&self, f: &mut fmt::Formatter<W>) -> fmt::Result {
        match self {
            ToldRefusal::Conflict { other } => write!(
                f,
                "transaction {other} has a related provisional write"
            ),
            ToldRefusal::Overlap { at } => write!(
                f,
                "a related write was committed at {at}, above the read time"
            ),
            ToldRefusal::Aborted { by } => write!(
                f,
                "the transaction was aborted by transaction {by}"
            ),
            ToldRefusal::Restart { at, .. } => write!(
                f,
                "the read met a write at {at} and may not restart"
            ),
            ToldRefusal::LeaseHeld { actor, until } => write!(
                f,
                "{actor}: the reading is not above the end of the lease, {until}"
            ),
            ToldRefusal::ClockFull { actor, at } => write!(
                f,
                "{actor}: the logical counter of {at} is at its end"
            ),
            ToldRefusal::ClockRange { actor, reading } => write!(
                f,
                "{actor}: the reading {reading} is above the greatest that a clock takes"
            ),
            ToldRefusal::LogFault { actor } => write!(f, "{actor}: the log failed"),
            ToldRefusal::Down { actor, since } => write!(f, "{actor}: down since action {since}"),
            ToldRefusal::NoTxn => f.write_str("no transaction is open"),
            ToldRefusal::TxnOpen => f.write_str("a transaction is open"),
            ToldRefusal::InDoubt => f.write_str("the transaction is in doubt"),
            ToldRefusal::Memory => f.write_str("out of memory"),
        }
    }
}

impl Error for ToldRefusal {}
