//! What a version holds.
use hybrid_time::HybridTime;
use txn_types::Op;

/// What a version holds besides its path, its commit time and its number.
#[derive(Debug, Drop)]
pub struct VersionValue {
    /// The time at which it was provisional.
    pub wrote: HybridTime,
    pub op: Op,
}
