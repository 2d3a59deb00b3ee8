//! The rows of a read, from what its tablets answered.
ghost use Rattle.std.specs.Prelude.{◌≡◌, [], ◌++◌, IfOk, OnOk};
ghost use Rattle.txn_types.specs.ReadProgram.{all_rows as rows_of_all, row_of as row_in, rows_from as rows_at};
ghost use Rattle.read_plan.specs.Found.{all_seen};

use crate::tablet_rows::TabletRows;
use doc_path::Path;
use docdb_base::{Memory, Seq, TryCopy};
use std::alloc::Global;
use txn_types::{Place, ReadKind, Row, Rows};

/// The rows of a read: those of its paths in their order, or all of a scan.
pub(crate) fn all_rows(
    alloc: Global,
    kind: ReadKind,
    places: &[Place],
    found: &[TabletRows],
) -> Result<Rows, Memory>
    ensures { IfOk result (λ rows. rows ≡ rows_of_all kind places.now (all_seen found.now)) }
{
    match kind {
        ReadKind::Get => rows_of_places(alloc, places, found),
        ReadKind::Scan => rows_of_tablets(alloc, found),
    }
}

fn rows_of_places(alloc: Global, places: &[Place], found: &[TabletRows]) -> Result<Rows, Memory>
    ensures { IfOk result (λ rows. rows ≡ rows_of_all ReadKind.Get places.now (all_seen found.now)) }
{
    let mut rows = Seq::new(alloc);
    for place in places {
        rows.push(row_of(alloc, &place.path, rows_from(place.tablet, found))?)?;
    }
    Ok(rows)
}

fn rows_of_tablets(alloc: Global, found: &[TabletRows]) -> Result<Rows, Memory>
    ensures { IfOk result (λ rows. rows ≡ rows_of_all ReadKind.Scan [] (all_seen found.now)) }
{
    let mut rows = Seq::new(alloc);
    for of in found {
        append_copies(&mut rows, alloc, of.rows.items())?;
    }
    Ok(rows)
}

// If memory runs out, some of the rows may be there.
fn append_copies(rows: &mut Rows, alloc: Global, items: &[Row]) -> Result<(), Memory>
    ensures { OnOk result (rows.new ≡ rows.old ++ items.now) }
{
    for row in items {
        rows.push(row.try_copy(alloc)?)?;
    }
    Ok(())
}

// The rows of a tablet: a read has at most sixteen.
fn rows_from(tablet: u32, found: &[TabletRows]) -> &[Row]
    ensures { result.now ≡ rows_at tablet (all_seen found.now) }
{
    for of in found {
        if of.tablet == tablet {
            return of.rows.items();
        }
    }
    &[]
}

// A copy of the row of a path, which has no value where there is none.
fn row_of(alloc: Global, path: &Path, rows: &[Row]) -> Result<Row, Memory>
    ensures { IfOk result (λ row. row ≡ row_in path.now rows.now) }
{
    for row in rows {
        if row.path.is_prefix(path) && path.is_prefix(&row.path) {
            return row.try_copy(alloc);
        }
    }
    Ok(Row {
        path: path.try_copy(alloc)?,
        value: None,
    })
}
