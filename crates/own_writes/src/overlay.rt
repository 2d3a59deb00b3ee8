//! The writes of a transaction, by their numbers, over what a read found.
ghost use Rattle.std.specs.Prelude.{◌≡◌, ◌≤◌, ◌+◌, ◌^◌, List, map, filter, not, is_some, length, IfOk};
ghost use Rattle.txn_data.specs.declared.written.Written.{Written};
ghost use Rattle.txn_types.specs.Session.{writes_of, row_under, is_untouched};
ghost use Rattle.txn_types.specs.Writes.{last_word};
ghost use Rattle.regular_records.specs.Holding.{Holds};
ghost use Rattle.own_writes.specs.Accepted.{all_accepted};
ghost use Rattle.own_writes.specs.Numbered.{numbered};

use crate::accepted::Accepted;
use doc_path::Path;
use docdb_base::{Memory, Seq, TryCopy};
use hybrid_time::HybridTime;
use regular_records::{MapVersions, Versions, laws};
use std::alloc::Global;
use txn_types::{Row, Rows, Version};

/// These writes as versions of one time, numbered from `first` on.
pub(crate) fn versions_of(
    alloc: Global,
    writes: &[Accepted],
    first: usize,
) -> Result<Vec<Version>, Memory>
    requires { first + length writes.now ≤ 2 ^ 32 }
    ensures { IfOk result (λ versions. versions.items ≡ numbered first (writes_of (all_accepted writes.now))) }
{
    let mut versions = Vec::new(alloc);
    for (i, accepted) in writes.iter().enumerate() {
        versions.push(Version {
            path: accepted.write.path.try_copy(alloc)?,
            at: HybridTime::ZERO,
            wrote: HybridTime::ZERO,
            number: (first + i) as u32,
            op: accepted.write.op.try_copy(alloc)?,
        })?;
    }
    Ok(versions)
}

/// Whether one of the writes has the last word on a path. It takes no memory.
pub(crate) fn is_written(own: &MapVersions, path: &Path) -> bool
    ensures { (ws : List Written) → Holds own.now (numbered 0 ws) → result ≡ is_some (last_word ws path.now) }
{
    laws::newest_is_last_word();
    own.decided_at(path, HybridTime::ZERO).is_some()
}

/// A row goes by the write that has the last word on its path, where there is one.
pub(crate) fn row_over(own: &MapVersions, row: Row) -> Result<Row, Memory>
    ensures { (ws : List Written) → Holds own.now (numbered 0 ws) → IfOk result (λ over. over ≡ row_under ws row) }
{
    if !is_written(own, &row.path) {
        return Ok(row);
    }
    let value = own.get_at(&row.path, HybridTime::ZERO)?;
    Ok(Row {
        path: row.path,
        value,
    })
}

/// Each row by the writes.
pub(crate) fn rows_over(alloc: Global, own: &MapVersions, rows: Rows) -> Result<Rows, Memory>
    ensures { (ws : List Written) → Holds own.now (numbered 0 ws) → IfOk result (λ over. over ≡ map (row_under ws) rows) }
{
    let mut over = Seq::new(alloc);
    for row in rows.into_items() {
        over.push(row_over(own, row)?)?;
    }
    Ok(over)
}

/// The rows on which no write has the last word.
pub(crate) fn rows_untouched(
    alloc: Global,
    own: &MapVersions,
    rows: Rows,
) -> Result<Vec<Row>, Memory>
    ensures { (ws : List Written) → Holds own.now (numbered 0 ws) → IfOk result (λ rest. rest.items ≡ filter (is_untouched ws) rows) }
{
    let mut rest = Vec::new(alloc);
    for row in rows.into_items() {
        if !is_written(own, &row.path) {
            rest.push(row)?;
        }
    }
    Ok(rest)
}
