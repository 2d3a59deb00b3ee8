//! What a session or an applier is told of a command.
use crate::lists::Rows;
use crate::told_refusal::ToldRefusal;
use crate::txn_id::TxnId;
use docdb_base::{Memory, TryCopy};
use hybrid_time::HybridTime;
use std::alloc::Global;

/// What a session or an applier is told of a command.
#[derive(Debug, Drop)]
pub enum Told {
    Began {
        txn: TxnId,
        at: HybridTime,
    },
    Written {
        at: HybridTime,
    },
    Committed {
        txn: TxnId,
        at: HybridTime,
    },
    Ended {
        txn: TxnId,
    },
    Values {
        at: HybridTime,
        restarts: u32,
        rows: Rows,
    },
    Restarted {
        kept: bool,
    },
    Passed {
        applied: u64,
        cleaned: u64,
        left: u64,
    },
    Set,
    Refused(ToldRefusal),
}

impl TryCopy for Told {
    fn try_copy(&self, alloc: Global) -> Result<Told, Memory> {
        match self {
            Told::Began { txn, at } => Ok(Told::Began { txn: *txn, at: *at }),
            Told::Written { at } => Ok(Told::Written { at: *at }),
            Told::Committed { txn, at } => Ok(Told::Committed { txn: *txn, at: *at }),
            Told::Ended { txn } => Ok(Told::Ended { txn: *txn }),
            Told::Values { at, restarts, rows } => Ok(Told::Values {
                at: *at,
                restarts: *restarts,
                rows: rows.try_copy(alloc)?,
            }),
            Told::Restarted { kept } => Ok(Told::Restarted { kept: *kept }),
            Told::Passed {
                applied,
                cleaned,
                left,
            } => Ok(Told::Passed {
                applied: *applied,
                cleaned: *cleaned,
                left: *left,
            }),
            Told::Set => Ok(Told::Set),
            Told::Refused(inner) => Ok(Told::Refused(inner.try_copy(alloc)?)),
        }
    }
}
