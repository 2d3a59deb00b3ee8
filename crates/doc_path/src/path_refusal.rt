//! Why a part is not added to a path.

use std::error::Error;
use std::fmt;

/// Why a part is not added to a path.
#[derive(Clone, Copy, Debug, PartialEq, Eq)]
pub enum PathRefusal {
    /// The path has five parts.
    TooMany,
    /// Out of memory.
    Memory,
}

impl fmt::Display for PathRefusal {
    fn fmt<W: fmt::Write>(&self, f: &mut fmt::Formatter<W>) -> fmt::Result {
        f.write_str(match self {
            PathRefusal::TooMany => "the path has five parts",
            PathRefusal::Memory => "out of memory",
        })
    }
}

impl Error for PathRefusal {}
