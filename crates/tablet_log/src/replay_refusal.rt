//! Why a log is not read.
ghost use Rattle.std.specs.Prelude.{◌≡◌};
ghost use Rattle.tablet_log.specs.declared.replay_refusal.ReplayRefusal.TheVariants.{Memory};
ghost use Rattle.tablet_log.specs.Refusals.{refused_by};

use docdb_outside::LoadFault;
use std::alloc::{AllocError, AllocFailed};
use std::error::Error;
use std::fmt;

/// Why a log is not read.
#[derive(Clone, Copy, Debug, PartialEq, Eq)]
pub enum ReplayRefusal {
    /// The store failed.
    LogFault,
    /// The bytes held are no whole list of frames of records; the offset of the first that is none.
    LogBad { offset: u64 },
    /// Out of memory.
    Memory,
}

impl From<LoadFault> for ReplayRefusal {
    ghost from_gives = { λ fault e. e ≡ refused_by fault };

    fn from(fault: LoadFault) -> ReplayRefusal {
        match fault {
            LoadFault::Failed => ReplayRefusal::LogFault,
            LoadFault::Memory => ReplayRefusal::Memory,
        }
    }
}

impl From<AllocError> for ReplayRefusal {
    ghost from_gives = { λ _ e. e ≡ Memory };

    fn from(_: AllocError) -> ReplayRefusal {
        ReplayRefusal::Memory
    }
}

impl<T: Drop> From<AllocFailed<T>> for ReplayRefusal {
    ghost from_gives = { λ _ e. e ≡ Memory };

    fn from(_: AllocFailed<T>) -> ReplayRefusal {
        ReplayRefusal::Memory
    }
}

impl fmt::Display for ReplayRefusal {
    fn fmt<W: fmt::Write>(&self, f: &mut fmt::Formatter<W>) -> fmt::Result {
        match self {
            ReplayRefusal::LogFault => f.write_str("the log failed"),
            ReplayRefusal::LogBad { offset } => write!(
                f,
                "no frame of a record at byte {offset} of the log"
            ),
            ReplayRefusal::Memory => f.write_str("out of memory"),
        }
    }
}

impl Error for ReplayRefusal {}
