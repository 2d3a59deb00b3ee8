//! The rows at or beneath a path.
ghost use Rattle.std.specs.Prelude.{◌≡◌, ◌≤◌, ◌++◌, length, IfOk, OnOk};
ghost use Rattle.doc_path.specs.Path.{is_prefix};
ghost use Rattle.txn_types.specs.Writes.{row_with};
ghost use Rattle.regular_records.specs.Kept.{IsKept};
ghost use Rattle.regular_records.specs.Scan.{rows_down, entries_from};

use crate::prefix_words::PrefixWords;
use crate::store::VersionStore;
use doc_path::{Path, PathPart};
use docdb_base::Memory;
use hybrid_time::HybridTime;
use std::alloc::Global;
use txn_types::{Bytes, Row, Rows};

/// All paths at or beneath this one that have a value at the time t, each with its value, in path order.
pub fn rows_at(
    alloc: Global,
    paths: &VersionStore,
    path: &Vec<PathPart>,
    t: HybridTime,
) -> Result<Rows, Memory>
    requires { IsKept paths.now }
    ensures { IfOk result (λ rows. rows ≡ rows_down t path.now.items paths.now (entries_from path.now paths.now)) }
{
    let mut rows = Rows::new(alloc);
    let mut words = PrefixWords::new(alloc);
    for (beneath, versions) in paths.range(path..) {
        if !begins(path, beneath) {
            break;
        }
        words.go_to(paths, beneath, versions, t)?;
        push_row(&mut rows, alloc, beneath, words.value(alloc)?)?;
    }
    Ok(rows)
}

/// Whether the parts of the second begin with those of the first.
pub fn begins(path: &[PathPart], other: &[PathPart]) -> bool
    ensures { result ≡ is_prefix path.now other.now }
{
    path.len() <= other.len() && &other[..path.len()] == path
}

/// Adds a row where there is a value.
pub fn push_row(
    rows: &mut Rows,
    alloc: Global,
    path: &[PathPart],
    value: Option<Bytes>,
) -> Result<(), Memory>
    requires least { 1 ≤ length path.now }
    requires most { length path.now ≤ 5 }
    ensures { OnOk result (rows.new ≡ rows.old ++ row_with path.now value) }
{
    if let Some(value) = value {
        let path = Path::of_parts(alloc, path)?;
        let value = Some(value);
        rows.push(Row { path, value })?;
    }
    Ok(())
}
