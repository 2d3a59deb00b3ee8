//! Why words were refused.
use thiserror::Error;

/// Why words were refused.
#[derive(Clone, Copy, Debug, PartialEq, Eq, Error)]
pub enum WordsRefusal {
    /// The words ask for no job.
    #[error("the words ask for no job")]
    Usage,
    /// There was no memory.
    #[error("out of memory")]
    Memory,
}
