//! What is kept of a transaction in no log.
use txn_types::TxnId;

/// What is kept of a transaction in no log, and is gone after a restart.
#[derive(Clone, Copy, Debug)]
pub enum Mark {
    Nothing,
    /// The owner is told of the commit.
    Told(TxnId),
    /// The tablet has applied it.
    Applied { txn: TxnId, tablet: u32 },
}
