//! What the words ask for.
use crate::mode::Mode;

/// What the words ask for.
#[derive(Clone, Copy, Debug, PartialEq, Eq)]
pub struct Job {
    pub mode: Mode,
    /// Whether the report is JSON lines.
    pub json: bool,
    /// The threads that run sessions, 1 to 64.
    pub workers: u32,
    /// The blocks of a made script: 1 to 10,000, and 0 where none is made.
    pub count: u32,
    /// Where the generator of a made script starts, at most 9,223,372,036,854,775,807.
    pub number: u64,
}
