//! Why bytes are no key or value.
ghost use Rattle.std.specs.Prelude.{◌≡◌};
ghost use Rattle.doc_value.specs.declared.key_refusal.KeyRefusal.TheVariants.{Memory};

use std::alloc::{AllocError, AllocFailed};
use std::error::Error;
use std::fmt;

/// Why bytes are no key or value: the first fault from the left, and the offset of its byte.
#[derive(Clone, Copy, Debug, PartialEq, Eq)]
pub enum KeyRefusal {
    /// A tag that may not stand there.
    BadTag { at: u64 },
    /// The bytes end inside a spelling. The missing byte would stand there.
    Truncated { at: u64 },
    /// Inside a text, a byte after a 00 that is neither 00 nor 01.
    BadText { at: u64 },
    /// The first byte of a hash that is not the hash of the columns behind it.
    BadHash { at: u64 },
    /// The tag of a ninth column or a fifth subkey.
    TooMany { at: u64 },
    /// The tag of a text of more than 256 bytes.
    TooLong { at: u64 },
    /// The first byte after a whole spelling.
    Spare { at: u64 },
    /// Out of memory.
    Memory,
}

impl From<AllocError> for KeyRefusal {
    ghost from_gives = { λ _ e. e ≡ Memory };

    fn from(_error: AllocError) -> KeyRefusal {
        KeyRefusal::Memory
    }
}

impl<T: Drop> From<AllocFailed<T>> for KeyRefusal {
    ghost from_gives = { λ _ e. e ≡ Memory };

    fn from(_error: AllocFailed<T>) -> KeyRefusal {
        KeyRefusal::Memory
    }
}

impl fmt::Display for KeyRefusal {
    fn fmt<W: fmt::Write>(&self, f: &mut fmt::Formatter<W>) -> fmt::Result {
        match self {
            KeyRefusal::BadTag { at } => write!(f, "a tag that may not stand at byte {at}"),
            KeyRefusal::Truncated { at } => write!(f, "the bytes end before byte {at}"),
            KeyRefusal::BadText { at } => write!(
                f,
                "a byte of a text that may not stand at byte {at}"
            ),
            KeyRefusal::BadHash { at } => write!(
                f,
                "the hash at byte {at} is not that of the columns"
            ),
            KeyRefusal::TooMany { at } => write!(
                f,
                "a ninth column or a fifth subkey at byte {at}"
            ),
            KeyRefusal::TooLong { at } => write!(f, "a text of more than 256 bytes at byte {at}"),
            KeyRefusal::Spare { at } => write!(f, "a spare byte at byte {at}"),
            KeyRefusal::Memory => f.write_str("out of memory"),
        }
    }
}

impl Error for KeyRefusal {}
