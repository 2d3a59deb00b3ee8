//! The fate of a transaction.
use crate::fate::Fate;
use crate::txn_id::TxnId;
use docdb_base::{Memory, TryCopy};
use std::alloc::Global;

/// The fate of a transaction.
#[derive(Clone, Copy, Debug, PartialEq, Eq)]
pub struct FateOf {
    pub txn: TxnId,
    pub fate: Fate,
}

impl TryCopy for FateOf {
    fn try_copy(&self, _alloc: Global) -> Result<FateOf, Memory> {
        Ok(*self)
    }
}
