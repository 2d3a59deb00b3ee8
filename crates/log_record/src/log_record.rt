//! A record of a log.
ghost use Rattle.std.specs.Prelude.{◌≡◌, length, slice_get};
ghost use Rattle.std.specs.List.{list_all};
ghost use Rattle.log_record.specs.Spelling.{are_bytes, is_path, is_op, has_spelling};

use doc_path::Path;
use hybrid_time::HybridTime;
use txn_data::{Isolation, Meta, Op, Tablets, TxnId};

/// What a tablet or a status tablet writes before it answers.
#[derive(Debug, Drop)]
pub enum LogRecord {
    /// Times up to the end of the lease may be given, `until` in microseconds.
    Lease {
        until: u64,
    },
    /// A write became provisional at the time `at`.
    Write {
        meta: Meta,
        number: u32,
        at: HybridTime,
        path: Path,
        op: Op,
    },
    /// The provisional writes of a transaction became versions at its commit time.
    Apply {
        txn: TxnId,
        at: HybridTime,
    },
    /// The provisional writes of a transaction went.
    Clean {
        txn: TxnId,
    },
    /// A write was committed alone.
    Single {
        txn: TxnId,
        at: HybridTime,
        path: Path,
        op: Op,
    },
    /// The record of a transaction was made.
    Begin {
        txn: TxnId,
        isolation: Isolation,
        priority: u32,
    },
    /// A transaction committed; these tablets accepted its writes.
    Commit {
        txn: TxnId,
        at: HybridTime,
        tablets: Tablets,
    },
    /// A transaction was aborted, by another one or by its owner.
    Abort {
        txn: TxnId,
        by: Option<TxnId>,
    },
    /// The record of a transaction went, since all its tablets have applied it.
    Forget {
        txn: TxnId,
    },
}

/// The most bytes that a part of a path and a value may have.
pub(crate) const LONGEST_BYTES: usize = 65_536;

/// The most parts of a path.
pub(crate) const MOST_PARTS: usize = 5;

/// The most tablets that a Commit may name.
pub(crate) const MOST_TABLETS: usize = 64;

fn are_bytes(bytes: &[u8]) -> bool
    ensures { result ≡ are_bytes bytes.now }
{
    (1..=LONGEST_BYTES).contains(&bytes.len())
}

fn is_path(path: &Path) -> bool
    ensures { result ≡ is_path path.now }
{
    for i in 0..path.parts() {
        if !are_bytes(path.part(i)) {
            return false;
        }
    }
    true
}

fn is_op(op: &Op) -> bool
    ensures { result ≡ is_op op.now }
{
    match op {
        Op::Put(value) => are_bytes(value.items()),
        Op::Delete => true,
    }
}

impl LogRecord {
    /// Whether the record has a spelling: whether each part of its path and its value have 1 to 65,536 bytes, and a
    /// Commit names at most 64 tablets. It takes no memory.
    pub fn has_spelling(&self) -> bool
        ensures { result ≡ has_spelling self.now }
    {
        match self {
            LogRecord::Write { path, op, .. } | LogRecord::Single { path, op, .. } => {
                is_path(path) && is_op(op)
            }
            LogRecord::Commit { tablets, .. } => tablets.items().len() <= MOST_TABLETS,
            _ => true,
        }
    }
}
