//! What is kept of a provisional write at its place.
use hybrid_time::HybridTime;
use txn_types::Op;

/// What is kept of a provisional write at its place.
#[derive(Debug, Drop)]
pub struct PrimaryRecord {
    /// Its number among the writes of its transaction, from 0.
    pub number: u32,
    pub op: Op,
    /// The time at which it became provisional.
    pub wrote: HybridTime,
}
