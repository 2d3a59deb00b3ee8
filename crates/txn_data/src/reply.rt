//! What a tablet or a status tablet answers.
use crate::fate::Fate;
use crate::lists::{Founds, Rows};
use crate::refusal::Refusal;
use crate::txn_id::TxnId;
use doc_path::Path;
use docdb_base::{Memory, TryCopy};
use hybrid_time::HybridTime;
use std::alloc::Global;

/// What a tablet or a status tablet answers.
#[derive(Debug, Drop)]
pub enum Reply {
    Others(Founds),
    Written { at: HybridTime },
    SingleDone { at: HybridTime },
    Listed { limit: HybridTime, others: Founds },
    Collected(Rows),
    Met { at: HybridTime, path: Path },
    Intents(Founds),
    AppliedHere,
    Cleaned,
    Begun,
    FateIs(Fate),
    Committed { at: HybridTime },
    AbortedBy { by: TxnId },
    Gone,
    Ended,
    Noted,
    Restarted { kept: bool },
    Refused(Refusal),
}

impl TryCopy for Reply {
    fn try_copy(&self, alloc: Global) -> Result<Reply, Memory> {
        match self {
            Reply::Others(inner) => Ok(Reply::Others(inner.try_copy(alloc)?)),
            Reply::Written { at } => Ok(Reply::Written { at: *at }),
            Reply::SingleDone { at } => Ok(Reply::SingleDone { at: *at }),
            Reply::Listed { limit, others } => Ok(Reply::Listed {
                limit: *limit,
                others: others.try_copy(alloc)?,
            }),
            Reply::Collected(inner) => Ok(Reply::Collected(inner.try_copy(alloc)?)),
            Reply::Met { at, path } => Ok(Reply::Met {
                at: *at,
                path: path.try_copy(alloc)?,
            }),
            Reply::Intents(inner) => Ok(Reply::Intents(inner.try_copy(alloc)?)),
            Reply::AppliedHere => Ok(Reply::AppliedHere),
            Reply::Cleaned => Ok(Reply::Cleaned),
            Reply::Begun => Ok(Reply::Begun),
            Reply::FateIs(inner) => Ok(Reply::FateIs(*inner)),
            Reply::Committed { at } => Ok(Reply::Committed { at: *at }),
            Reply::AbortedBy { by } => Ok(Reply::AbortedBy { by: *by }),
            Reply::Gone => Ok(Reply::Gone),
            Reply::Ended => Ok(Reply::Ended),
            Reply::Noted => Ok(Reply::Noted),
            Reply::Restarted { kept } => Ok(Reply::Restarted { kept: *kept }),
            Reply::Refused(inner) => Ok(Reply::Refused(*inner)),
        }
    }
}
