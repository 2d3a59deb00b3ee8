//! Why a script is not read.

/// Why a script is not read.
#[derive(Clone, Copy, Debug, PartialEq, Eq)]
pub enum FormRefusal {
    /// The line with this number is not of the form. Lines are counted from 1; 0 says that the script is too long.
    Later { line: u64 },
    /// Out of memory.
    Memory,
}
