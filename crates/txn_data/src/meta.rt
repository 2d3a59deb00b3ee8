//! What a provisional record says of its transaction.
use crate::isolation::Isolation;
use crate::txn_id::TxnId;
use docdb_base::{Memory, TryCopy};
use std::alloc::Global;

/// What a provisional record says of its transaction.
#[derive(Clone, Copy, Debug, PartialEq, Eq)]
pub struct Meta {
    pub txn: TxnId,
    /// The status tablet that keeps its record.
    pub status: u32,
    pub isolation: Isolation,
    pub priority: u32,
}

impl TryCopy for Meta {
    fn try_copy(&self, _alloc: Global) -> Result<Meta, Memory> {
        Ok(*self)
    }
}
