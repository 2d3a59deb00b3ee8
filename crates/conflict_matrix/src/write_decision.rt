//! What a write is answered.
use hybrid_time::HybridTime;
use txn_types::TxnId;

/// What a write is answered.
#[derive(Clone, Copy, Debug, PartialEq, Eq)]
pub enum WriteDecision {
    /// Nothing is in the way.
    Go,
    /// This transaction has a related provisional write, and is not known to be committed or aborted.
    Conflict { other: TxnId },
    /// A related write was committed at this time, which is above the read time.
    Overlap { at: HybridTime },
}
