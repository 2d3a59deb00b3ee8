//! A provisional write as a tablet keeps it.
use crate::op::Op;
use crate::txn_id::TxnId;
use doc_path::Path;
use docdb_base::{Memory, TryCopy};
use hybrid_time::HybridTime;
use std::alloc::Global;

/// A provisional write as a tablet keeps it.
#[derive(Debug, Drop)]
pub struct Provisional {
    pub path: Path,
    pub txn: TxnId,
    /// The time at which it became provisional.
    pub wrote: HybridTime,
    /// Its number among the writes of its transaction, from 0.
    pub number: u32,
    pub op: Op,
}

impl TryCopy for Provisional {
    fn try_copy(&self, alloc: Global) -> Result<Provisional, Memory> {
        Ok(Provisional {
            path: self.path.try_copy(alloc)?,
            txn: self.txn,
            wrote: self.wrote,
            number: self.number,
            op: self.op.try_copy(alloc)?,
        })
    }
}
