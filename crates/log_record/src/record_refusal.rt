//! Why bytes are no record.
ghost use Rattle.std.specs.Prelude.{◌≡◌};
ghost use Rattle.log_record.specs.declared.record_refusal.RecordRefusal.TheVariants.{Memory};

use std::alloc::{AllocError, AllocFailed};
use std::error::Error;
use std::fmt;

/// Why bytes are no record: the first fault from the left, and the offset of its byte.
#[derive(Clone, Copy, Debug, PartialEq, Eq)]
pub enum RecordRefusal {
    /// A first byte that is no kind of record.
    BadKind { at: u64 },
    /// The byte of an isolation, an operation or a flag that is not listed.
    BadFlag { at: u64 },
    /// The first byte of a count or a length that is out of its range.
    BadLength { at: u64 },
    /// The bytes end inside a spelling. The missing byte would stand there.
    Truncated { at: u64 },
    /// The first byte after a whole spelling.
    Spare { at: u64 },
    /// Out of memory.
    Memory,
}

impl From<AllocError> for RecordRefusal {
    ghost from_gives = { λ _ e. e ≡ Memory };

    fn from(_error: AllocError) -> RecordRefusal {
        RecordRefusal::Memory
    }
}

impl<T: Drop> From<AllocFailed<T>> for RecordRefusal {
    ghost from_gives = { λ _ e. e ≡ Memory };

    fn from(_error: AllocFailed<T>) -> RecordRefusal {
        RecordRefusal::Memory
    }
}

impl fmt::Display for RecordRefusal {
    fn fmt<W: fmt::Write>(&self, f: &mut fmt::Formatter<W>) -> fmt::Result {
        match self {
            RecordRefusal::BadKind { at } => write!(f, "no kind of record at byte {at}"),
            RecordRefusal::BadFlag { at } => write!(
                f,
                "an isolation, an operation or a flag that is not listed at byte {at}"
            ),
            RecordRefusal::BadLength { at } => write!(
                f,
                "a count or a length out of its range at byte {at}"
            ),
            RecordRefusal::Truncated { at } => write!(f, "the bytes end before byte {at}"),
            RecordRefusal::Spare { at } => write!(f, "a spare byte at byte {at}"),
            RecordRefusal::Memory => f.write_str("out of memory"),
        }
    }
}

impl Error for RecordRefusal {}
