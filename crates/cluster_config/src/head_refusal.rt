//! Why a head was refused.
use thiserror::Error;

/// Why a head was refused. Where more than one holds, the first of the list is told; `Memory` may come at any time.
#[derive(Clone, Copy, Debug, PartialEq, Eq, Error)]
pub enum HeadRefusal {
    /// The text is not TOML.
    #[error("the head is not TOML")]
    HeadText,
    /// The table has a key that a head does not have.
    #[error("the head has an unknown key")]
    HeadKey,
    /// A value is of another kind than its key wants, or out of range.
    #[error("a value of the head is of another kind or out of range")]
    HeadValue,
    /// There was no memory.
    #[error("out of memory")]
    Memory,
}
