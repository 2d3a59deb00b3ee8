//! A committed transaction or single write.
use crate::lists::Writes;
use crate::txn_id::TxnId;
use docdb_base::{Memory, TryCopy};
use hybrid_time::HybridTime;
use std::alloc::Global;

/// A committed transaction or single write.
#[derive(Debug, Drop)]
pub struct CommittedTxn {
    pub txn: TxnId,
    /// Its commit time.
    pub at: HybridTime,
    /// Its writes by write number.
    pub writes: Writes,
}

impl TryCopy for CommittedTxn {
    fn try_copy(&self, alloc: Global) -> Result<CommittedTxn, Memory> {
        Ok(CommittedTxn {
            txn: self.txn,
            at: self.at,
            writes: self.writes.try_copy(alloc)?,
        })
    }
}
