//! What is kept of a committed transaction.
use crate::waits::Waits;
use hybrid_time::HybridTime;

/// What is kept of a committed transaction.
#[derive(Debug, Drop)]
pub struct Commit {
    /// Its commit time.
    pub at: HybridTime,
    /// The tablets that have not applied it yet.
    pub waits: Waits,
    /// It names no tablets, and stays for good.
    pub stays: bool,
    /// Its owner was told of the commit since the last restart.
    pub sure: bool,
}
