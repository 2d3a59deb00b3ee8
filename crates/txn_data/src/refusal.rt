//! Why an actor did not do what it was asked.
use crate::txn_id::TxnId;
use docdb_base::{Memory, TryCopy};
use hybrid_time::HybridTime;
use std::alloc::Global;
use std::error::Error;
use std::fmt;

/// Why an actor did not do what it was asked.
#[derive(Clone, Copy, Debug, PartialEq, Eq)]
pub enum Refusal {
    /// Another transaction has a related provisional write here.
    Conflict { other: TxnId },
    /// A related write was committed above the read time.
    Overlap { at: HybridTime },
    /// The reading is not above the end of the lease, in microseconds.
    LeaseHeld { until: u64 },
    /// The logical counter is at its end.
    ClockFull { at: HybridTime },
    /// The reading, in microseconds, is above the greatest that a clock takes.
    ClockRange { reading: u64 },
    /// The append or the load failed.
    LogFault,
    /// An append or a load failed; the number of that action among the actor's own.
    Down { since: u64 },
    /// Out of memory.
    Memory,
}

impl TryCopy for Refusal {
    fn try_copy(&self, _alloc: Global) -> Result<Refusal, Memory> {
        Ok(*self)
    }
}

impl fmt::Display for Refusal {
    fn fmt<W: fmt::Write>(&self, f: &mut fmt::Formatter<W>) -> fmt::Result {
        match self {
            Refusal::Conflict { other } => write!(
                f,
                "transaction {other} has a related provisional write"
            ),
            Refusal::Overlap { at } => write!(
                f,
                "a related write was committed at {at}, above the read time"
            ),
            Refusal::LeaseHeld { until } => write!(
                f,
                "the reading is not above the end of the lease, {until}"
            ),
            Refusal::ClockFull { at } => write!(f, "the logical counter of {at} is at its end"),
            Refusal::ClockRange { reading } => write!(
                f,
                "the reading {reading} is above the greatest that a clock takes"
            ),
            Refusal::LogFault => f.write_str("the log failed"),
            Refusal::Down { since } => write!(f, "down since action {since}"),
            Refusal::Memory => f.write_str("out of memory"),
        }
    }
}

impl Error for Refusal {}
