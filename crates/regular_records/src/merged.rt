//! What two sets of versions answer together.
ghost use Rattle.std.specs.Prelude.{◌≡◌, ◌≤◌, length, true, false, List, ◌++◌, IfOk, OnOk, if◌then◌else◌};
ghost use Rattle.std.specs.List.{AllByRecursion};
ghost use Rattle.txn_data.specs.declared.version.Version.{Version as Seen};
ghost use Rattle.txn_data.specs.declared.row.Row.{Row as Read};
ghost use Rattle.txn_data.specs.declared.written.Written.{Written as Write};
ghost use Rattle.txn_types.specs.Writes.{value as value_of, with_path, beneath};
ghost use Rattle.txn_types.specs.Tablet.{writes_at};
ghost use Rattle.regular_records.specs.Merged.{paths_in, with_rows, HasParts, HaveValues, IsKnown, AreKnown, rows_at};

use crate::scan::push_row;
use crate::versions::Versions;
use doc_path::{Path, PathPart};
use docdb_base::Memory;
use hybrid_time::HybridTime;
use std::alloc::Global;
use std::collections::BTreeMap;
use txn_types::{Bytes, Row, Rows};

/// The paths that are in either set, each with its value in both together where that is known. Where it is not, the sets
/// are asked.
type Places = BTreeMap<Vec<PathPart>, Option<Bytes>>;

/// The value at `path` at the time `t` in both sets together, where it has one. Of two versions with one path, commit time
/// and write number the newer set's counts.
pub fn get_merged<V: Versions>(
    older: &V,
    newer: &V,
    path: &Path,
    t: HybridTime,
) -> Result<Option<Bytes>, Memory>
    requires { V.fits path.now }
    ensures { (us vs : List Seen) → V.holds older.now us → V.holds newer.now vs → IfOk result (λ found. found ≡ value_of (writes_at t (us ++ vs)) path.now) }
{
    if is_older(older, newer, path, t) {
        older.get_at(path, t)
    } else {
        newer.get_at(path, t)
    }
}

// Whether the older set decides what is at a path.
fn is_older<V: Versions>(older: &V, newer: &V, path: &Path, t: HybridTime) -> bool
    requires { V.fits path.now }
    ensures older { (us vs : List Seen) → V.holds older.now us → V.holds newer.now vs → result ≡ true → value_of (writes_at t us) path.now ≡ value_of (writes_at t (us ++ vs)) path.now }
    ensures newer { (us vs : List Seen) → V.holds older.now us → V.holds newer.now vs → result ≡ false → value_of (writes_at t vs) path.now ≡ value_of (writes_at t (us ++ vs)) path.now }
{
    newer.decided_at(path, t) < older.decided_at(path, t)
}

/// All paths at or beneath `path` that have a value at the time `t` in both sets together, each with its value, in path
/// order. Of what the two scans found, the values that count are moved, and not copied.
pub fn scan_merged<V: Versions>(
    alloc: Global,
    older: &V,
    newer: &V,
    path: &Path,
    t: HybridTime,
) -> Result<Rows, Memory>
    requires { V.fits path.now }
    ensures { (us vs : List Seen) → V.holds older.now us → V.holds newer.now vs → IfOk result (λ rows. rows ≡ beneath (writes_at t (us ++ vs)) path.now) }
{
    let mut places = Places::new(alloc);
    let rows = older.scan_at(path, t)?;
    add_rows(&mut places, older, newer, t, true, rows)?;
    let rows = newer.scan_at(path, t)?;
    add_rows(&mut places, older, newer, t, false, rows)?;
    rows_on(alloc, older, newer, places, t)
}

// Adds the paths of these rows, which are those of the older set or of the newer one, and the values where that set
// decides.
fn add_rows<V: Versions>(
    places: &mut Places,
    older: &V,
    newer: &V,
    t: HybridTime,
    of_older: bool,
    rows: Rows,
) -> Result<(), Memory>
    requires { AllByRecursion (λ (r : Read). V.fits r.path) rows }
    ensures paths { OnOk result (paths_in places.new.entries ≡ with_rows (paths_in places.old.entries) rows) }
    ensures parts { AllByRecursion HasParts (paths_in places.old.entries) → OnOk result (AllByRecursion HasParts (paths_in places.new.entries)) }
    ensures known { (us vs : List Seen) → V.holds older.now us → V.holds newer.now vs → HaveValues (writes_at t (if of_older then us else vs)) rows → AreKnown (writes_at t (us ++ vs)) places.old.entries → OnOk result (AreKnown (writes_at t (us ++ vs)) places.new.entries) }
{
    for row in rows.into_items() {
        let Row { path, value } = row;
        let known = known_value(older, newer, &path, t, of_older, value);
        add_place(places, path, known)?;
    }
    Ok(())
}

// The value that a row of the older set or of the newer has, where its set decides.
fn known_value<V: Versions>(
    older: &V,
    newer: &V,
    path: &Path,
    t: HybridTime,
    of_older: bool,
    value: Option<Bytes>,
) -> Option<Bytes>
    requires { V.fits path.now }
    ensures { (us vs : List Seen) → V.holds older.now us → V.holds newer.now vs → value ≡ value_of (writes_at t (if of_older then us else vs)) path.now → IsKnown (writes_at t (us ++ vs)) path.now result }
{
    if is_older(older, newer, path, t) == of_older {
        value
    } else {
        None
    }
}

// What was known of the path before counts no more.
fn add_place(places: &mut Places, path: Path, known: Option<Bytes>) -> Result<(), Memory>
    ensures paths { OnOk result (paths_in places.new.entries ≡ with_path path (paths_in places.old.entries)) }
    ensures parts { AllByRecursion HasParts (paths_in places.old.entries) → OnOk result (AllByRecursion HasParts (paths_in places.new.entries)) }
    ensures known { (ws : List Write) → IsKnown ws path known → AreKnown ws places.old.entries → OnOk result (AreKnown ws places.new.entries) }
{
    places.insert(path.into_parts(), known)?;
    Ok(())
}

// The rows of these paths.
fn rows_on<V: Versions>(
    alloc: Global,
    older: &V,
    newer: &V,
    places: Places,
    t: HybridTime,
) -> Result<Rows, Memory>
    requires parts { AllByRecursion HasParts (paths_in places.entries) }
    requires fit { AllByRecursion V.fits (paths_in places.entries) }
    ensures { (us vs : List Seen) → V.holds older.now us → V.holds newer.now vs → AreKnown (writes_at t (us ++ vs)) places.entries → IfOk result (λ rows. rows ≡ rows_at t (us ++ vs) (paths_in places.entries)) }
{
    let mut rows = Rows::new(alloc);
    for (parts, known) in places {
        let value = value_on(alloc, older, newer, &parts, known, t)?;
        push_row(&mut rows, alloc, &parts, value)?;
    }
    Ok(rows)
}

// The value at a path, which is asked where it is not known.
fn value_on<V: Versions>(
    alloc: Global,
    older: &V,
    newer: &V,
    parts: &[PathPart],
    known: Option<Bytes>,
    t: HybridTime,
) -> Result<Option<Bytes>, Memory>
    requires least { 1 ≤ length parts.now }
    requires most { length parts.now ≤ 5 }
    requires fits { V.fits parts.now }
    ensures { (us vs : List Seen) → V.holds older.now us → V.holds newer.now vs → IsKnown (writes_at t (us ++ vs)) parts.now known → IfOk result (λ found. found ≡ value_of (writes_at t (us ++ vs)) parts.now) }
{
    match known {
        Some(value) => Ok(Some(value)),
        None => get_merged(older, newer, &Path::of_parts(alloc, parts)?, t),
    }
}
