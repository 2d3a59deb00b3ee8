//! Why a log is not loaded.
ghost use Rattle.std.specs.Prelude.{◌≡◌};
ghost use Rattle.docdb_outside.specs.declared.load_fault.LoadFault.TheVariants.{Memory};

use std::alloc::AllocError;
use std::error::Error;
use std::fmt;

/// Why a log is not loaded.
#[derive(Clone, Copy, Debug, PartialEq, Eq)]
pub enum LoadFault {
    /// The outside failed.
    Failed,
    /// Out of memory.
    Memory,
}

impl From<AllocError> for LoadFault {
    ghost from_gives = { λ _ fault. fault ≡ Memory };

    fn from(_: AllocError) -> LoadFault {
        LoadFault::Memory
    }
}

impl fmt::Display for LoadFault {
    fn fmt<W: fmt::Write>(&self, f: &mut fmt::Formatter<W>) -> fmt::Result {
        f.write_str(match self {
            LoadFault::Failed => "the outside failed",
            LoadFault::Memory => "out of memory",
        })
    }
}

impl Error for LoadFault {}
