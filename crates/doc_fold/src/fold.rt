//! The value and the rows that committed transactions leave.
ghost use Rattle.std.specs.Prelude.{◌≡◌, ◌++◌, IfOk, OnOk, MatchOption};
ghost use Rattle.doc_path.specs.Path.{is_prefix};
ghost use Rattle.txn_types.specs.Committed.{fold_of};
ghost use Rattle.txn_types.specs.Writes.{value, beneath, last_word as last_word_in, row_with};

use crate::order::committed_until;
use crate::scan::paths_beneath;
use doc_path::Path;
use docdb_base::{Memory, TryCopy};
use hybrid_time::HybridTime;
use std::alloc::Global;
use txn_types::{Bytes, CommittedTxn, Op, Row, Rows, Writes, Written};

/// The value at `path` at the time `t`, where it has one.
pub fn fold_get(
    alloc: Global,
    list: &[CommittedTxn],
    t: HybridTime,
    path: &Path,
) -> Result<Option<Bytes>, Memory>
    ensures { IfOk result (λ found. found ≡ value (fold_of list.now t) path.now) }
{
    let writes = writes_until(alloc, list, t)?;
    value_in(alloc, &writes, path)
}

/// All paths at or beneath `path` that have a value at the time `t`, each with its value, in path order.
pub fn fold_scan(
    alloc: Global,
    list: &[CommittedTxn],
    t: HybridTime,
    path: &Path,
) -> Result<Rows, Memory>
    ensures { IfOk result (λ rows. rows ≡ beneath (fold_of list.now t) path.now) }
{
    let writes = writes_until(alloc, list, t)?;
    rows_beneath(alloc, &writes, path)
}

fn rows_beneath(alloc: Global, writes: &Writes, path: &Path) -> Result<Rows, Memory>
    ensures { IfOk result (λ rows. rows ≡ beneath writes.now path.now) }
{
    let paths = paths_beneath(alloc, path, writes)?;
    let mut rows = Rows::new(alloc);
    for lower in &paths {
        let value = value_in(alloc, writes, lower)?;
        push_row(&mut rows, alloc, lower, value)?;
    }
    Ok(rows)
}

// Adds a row where there is a value.
fn push_row(rows: &mut Rows, alloc: Global, path: &Path, value: Option<Bytes>) -> Result<(), Memory>
    ensures { OnOk result (rows.new ≡ rows.old ++ row_with path.now value) }
{
    if let Some(value) = value {
        let path = path.try_copy(alloc)?;
        let value = Some(value);
        rows.push(Row { path, value })?;
    }
    Ok(())
}

// The writes of all that is committed not later than t, in one list.
fn writes_until(alloc: Global, list: &[CommittedTxn], t: HybridTime) -> Result<Writes, Memory>
    ensures { IfOk result (λ writes. writes ≡ fold_of list.now t) }
{
    let mut writes = Writes::new(alloc);
    for txn in &committed_until(alloc, list, t)? {
        for write in txn.writes.items() {
            writes.push(write.try_copy(alloc)?)?;
        }
    }
    Ok(writes)
}

fn value_in(alloc: Global, writes: &Writes, path: &Path) -> Result<Option<Bytes>, Memory>
    ensures { IfOk result (λ found. found ≡ value writes.now path.now) }
{
    match last_word(writes, path) {
        Some(write) if path.is_prefix(&write.path) => match &write.op {
            Op::Put(bytes) => Ok(Some(bytes.try_copy(alloc)?)),
            Op::Delete => Ok(None),
        },
        _ => Ok(None),
    }
}

// The last write whose path is a prefix of this one.
fn last_word<'a>(writes: &'a Writes, path: &Path) -> Option<&'a Written>
    ensures { MatchOption result (last_word_in writes.now path.now ≡ None) (λ write. last_word_in writes.now path.now ≡ Some write.now) }
{
    let mut last: Option<&'a Written> = None;
    for write in writes.items() {
        if write.path.is_prefix(path) {
            last = Some(write);
        }
    }
    last
}
