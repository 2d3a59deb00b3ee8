//! What a session or an applier asks of a tablet or a status tablet.
ghost use Rattle.std.specs.Prelude.{◌≡◌};
ghost use Rattle.txn_data.specs.Time.{takes_time};

use crate::isolation::Isolation;
use crate::lists::{Fates, Paths, Tablets};
use crate::meta::Meta;
use crate::op::Op;
use crate::read_kind::ReadKind;
use crate::txn_id::TxnId;
use crate::window::Window;
use doc_path::Path;
use docdb_base::{Memory, TryCopy};
use hybrid_time::HybridTime;
use std::alloc::Global;

/// What a session or an applier asks of a tablet or a status tablet.
#[derive(Debug, Drop)]
pub enum Request {
    /// Which transactions have an intent that conflicts with a write here?
    ListWrite {
        txn: TxnId,
        path: Path,
    },
    /// Make this write provisional.
    Write {
        meta: Meta,
        number: u32,
        path: Path,
        op: Op,
        read: HybridTime,
        seen: HybridTime,
        fates: Fates,
    },
    /// Commit this write alone, at once.
    Single {
        txn: TxnId,
        path: Path,
        op: Op,
        seen: HybridTime,
        fates: Fates,
    },
    /// Which transactions may a read of these paths have to ask about? Fixes the local limit.
    ListRead {
        own: Option<TxnId>,
        paths: Paths,
        t: HybridTime,
        g: HybridTime,
        limit: Option<HybridTime>,
    },
    /// The values at a time, or what is met in the window.
    Collect {
        own: Option<TxnId>,
        kind: ReadKind,
        paths: Paths,
        t: HybridTime,
        window: Option<Window>,
        fates: Fates,
    },
    /// Which transactions have provisional records here?
    ListIntents,
    /// Turn the provisional records of a transaction into versions.
    Apply {
        txn: TxnId,
        at: HybridTime,
    },
    /// Drop the provisional records of a transaction.
    Clean {
        txn: TxnId,
    },
    /// Keep a record of this transaction.
    Begin {
        txn: TxnId,
        isolation: Isolation,
        priority: u32,
    },
    /// What became of this transaction? Pending promises that a later commit is above `t`.
    AskFate {
        txn: TxnId,
        t: HybridTime,
    },
    /// Abort this transaction where its priority is lower.
    Resolve {
        txn: TxnId,
        by: TxnId,
        priority: u32,
    },
    /// Commit, above this time; these tablets accepted writes.
    Commit {
        txn: TxnId,
        floor: HybridTime,
        tablets: Tablets,
    },
    /// Abort, or tell that it committed.
    Abort {
        txn: TxnId,
    },
    /// A tablet has applied this transaction.
    Applied {
        txn: TxnId,
        tablet: u32,
    },
    /// Load the log again and start from what it holds.
    Restart,
}

impl TryCopy for Request {
    fn try_copy(&self, alloc: Global) -> Result<Request, Memory> {
        match self {
            Request::ListWrite { txn, path } => Ok(Request::ListWrite {
                txn: *txn,
                path: path.try_copy(alloc)?,
            }),
            Request::Write {
                meta,
                number,
                path,
                op,
                read,
                seen,
                fates,
            } => Ok(Request::Write {
                meta: *meta,
                number: *number,
                path: path.try_copy(alloc)?,
                op: op.try_copy(alloc)?,
                read: *read,
                seen: *seen,
                fates: fates.try_copy(alloc)?,
            }),
            Request::Single {
                txn,
                path,
                op,
                seen,
                fates,
            } => Ok(Request::Single {
                txn: *txn,
                path: path.try_copy(alloc)?,
                op: op.try_copy(alloc)?,
                seen: *seen,
                fates: fates.try_copy(alloc)?,
            }),
            Request::ListRead {
                own,
                paths,
                t,
                g,
                limit,
            } => Ok(Request::ListRead {
                own: *own,
                paths: paths.try_copy(alloc)?,
                t: *t,
                g: *g,
                limit: *limit,
            }),
            Request::Collect {
                own,
                kind,
                paths,
                t,
                window,
                fates,
            } => Ok(Request::Collect {
                own: *own,
                kind: *kind,
                paths: paths.try_copy(alloc)?,
                t: *t,
                window: *window,
                fates: fates.try_copy(alloc)?,
            }),
            Request::ListIntents => Ok(Request::ListIntents),
            Request::Apply { txn, at } => Ok(Request::Apply { txn: *txn, at: *at }),
            Request::Clean { txn } => Ok(Request::Clean { txn: *txn }),
            Request::Begin {
                txn,
                isolation,
                priority,
            } => Ok(Request::Begin {
                txn: *txn,
                isolation: *isolation,
                priority: *priority,
            }),
            Request::AskFate { txn, t } => Ok(Request::AskFate { txn: *txn, t: *t }),
            Request::Resolve { txn, by, priority } => Ok(Request::Resolve {
                txn: *txn,
                by: *by,
                priority: *priority,
            }),
            Request::Commit {
                txn,
                floor,
                tablets,
            } => Ok(Request::Commit {
                txn: *txn,
                floor: *floor,
                tablets: tablets.try_copy(alloc)?,
            }),
            Request::Abort { txn } => Ok(Request::Abort { txn: *txn }),
            Request::Applied { txn, tablet } => Ok(Request::Applied {
                txn: *txn,
                tablet: *tablet,
            }),
            Request::Restart => Ok(Request::Restart),
        }
    }
}

impl Request {
    /// Whether the action that serves it takes a reading of its node's clock.
    pub fn takes_time(&self) -> bool
        ensures { result ≡ takes_time self.now }
    {
        matches!(
            self,
            Request::Write { .. }
                | Request::Single { .. }
                | Request::ListRead { .. }
                | Request::Apply { .. }
                | Request::AskFate { .. }
                | Request::Commit { .. }
        )
    }
}
