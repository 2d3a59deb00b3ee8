//! A step of a clock.
use hybrid_time::HybridTime;

/// A time that may be given once the log holds the lease that it needs.
#[derive(Clone, Copy, Debug, PartialEq, Eq)]
pub struct Step {
    pub time: HybridTime,
    /// The end of the lease that has to be logged first, in microseconds, where one is needed.
    pub lease: Option<u64>,
}
