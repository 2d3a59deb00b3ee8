//! A transaction that a tablet found, and the status tablet that keeps its record.
use crate::txn_id::TxnId;
use docdb_base::{Memory, TryCopy};
use std::alloc::Global;

/// A transaction that a tablet found, and the status tablet that keeps its record.
#[derive(Clone, Copy, Debug, PartialEq, Eq)]
pub struct Found {
    pub txn: TxnId,
    pub status: u32,
}

impl TryCopy for Found {
    fn try_copy(&self, _alloc: Global) -> Result<Found, Memory> {
        Ok(*self)
    }
}
