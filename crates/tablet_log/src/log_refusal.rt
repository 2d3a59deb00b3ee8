//! Why records are not appended.
ghost use Rattle.std.specs.Prelude.{◌≡◌};
ghost use Rattle.tablet_log.specs.declared.log_refusal.LogRefusal.TheVariants.{LogFault, Memory};

use docdb_outside::Failed;
use std::alloc::AllocError;
use std::error::Error;
use std::fmt;

/// Why records are not appended.
#[derive(Clone, Copy, Debug, PartialEq, Eq)]
pub enum LogRefusal {
    /// The store failed: it holds all of the new frames, or none.
    LogFault,
    /// Out of memory. The store is as before.
    Memory,
}

impl From<AllocError> for LogRefusal {
    ghost from_gives = { λ _ e. e ≡ Memory };

    fn from(_: AllocError) -> LogRefusal {
        LogRefusal::Memory
    }
}

impl From<Failed> for LogRefusal {
    ghost from_gives = { λ _ e. e ≡ LogFault };

    fn from(_: Failed) -> LogRefusal {
        LogRefusal::LogFault
    }
}

impl fmt::Display for LogRefusal {
    fn fmt<W: fmt::Write>(&self, f: &mut fmt::Formatter<W>) -> fmt::Result {
        f.write_str(match self {
            LogRefusal::LogFault => "the log failed",
            LogRefusal::Memory => "out of memory",
        })
    }
}

impl Error for LogRefusal {}
