//! The versions that a read considers.
ghost use Rattle.std.specs.Prelude.{◌≡◌, List, [], ◌++◌, IfOk, OnOk};
ghost use Rattle.std.specs.List.{All, AllByRecursion};
ghost use Rattle.txn_data.specs.declared.version.Version.{Version as Seen};
ghost use Rattle.txn_data.specs.declared.read_kind.ReadKind.TheVariants as kind;
ghost use Rattle.txn_types.specs.Writes.{value, beneath};
ghost use Rattle.txn_types.specs.Tablet.{with_versions, writes_at, rows_of};
ghost use Rattle.tablet_records.specs.Considers.{Considers, NewerHolds};

use doc_path::Path;
use docdb_base::{Memory, TryCopy};
use hybrid_time::HybridTime;
use regular_records::{Versions, get_merged, scan_merged};
use std::alloc::Global;
use txn_types::{Bytes, Paths, ReadKind, Row, Rows, Version};

/// The versions of a tablet, and those that committed provisional writes become, where there are any.
#[derive(Drop)]
pub(crate) struct Considered<'a, V: Versions> {
    alloc: Global,
    versions: &'a V,
    newer: Option<V>,
}

impl<'a, V: Versions + Drop> Considered<'a, V> {
    /// The versions of a tablet with these over them.
    pub(crate) fn of(
        alloc: Global,
        versions: &'a V,
        list: Vec<Version>,
    ) -> Result<Considered<'a, V>, Memory>
        requires { AllByRecursion (λ (v : Seen). V.fits v.path) list.items }
        ensures { (us : List Seen) → V.holds versions.now us → IfOk result (λ all. Considers V.holds all us (with_versions [] list.items)) }
    {
        let newer = newer_of(versions, list)?;
        Ok(Considered {
            alloc,
            versions,
            newer,
        })
    }

    /// The rows of a read of these paths at `t`.
    pub(crate) fn rows(&self, kind: ReadKind, paths: &Paths, t: HybridTime) -> Result<Rows, Memory>
        requires { All V.fits paths.now }
        ensures { (us vs : List Seen) → Considers V.holds self.now us vs → IfOk result (λ rows. rows ≡ rows_of kind paths.now (writes_at t (us ++ vs))) }
    {
        match kind {
            ReadKind::Get => self.got(paths.items(), t),
            ReadKind::Scan => self.scanned(paths.items(), t),
        }
    }

    // A row for each path.
    fn got(&self, paths: &[Path], t: HybridTime) -> Result<Rows, Memory>
        requires { All V.fits paths.now }
        ensures { (us vs : List Seen) → Considers V.holds self.now us vs → IfOk result (λ rows. rows ≡ rows_of kind.Get paths.now (writes_at t (us ++ vs))) }
    {
        let mut rows = Rows::new(self.alloc);
        for path in paths {
            let value = self.value_at(path, t)?;
            let path = path.try_copy(self.alloc)?;
            rows.push(Row { path, value })?;
        }
        Ok(rows)
    }

    // The rows at and beneath each path.
    fn scanned(&self, paths: &[Path], t: HybridTime) -> Result<Rows, Memory>
        requires { All V.fits paths.now }
        ensures { (us vs : List Seen) → Considers V.holds self.now us vs → IfOk result (λ rows. rows ≡ rows_of kind.Scan paths.now (writes_at t (us ++ vs))) }
    {
        let mut rows = Rows::new(self.alloc);
        for path in paths {
            push_all(&mut rows, self.rows_beneath(path, t)?)?;
        }
        Ok(rows)
    }

    fn value_at(&self, path: &Path, t: HybridTime) -> Result<Option<Bytes>, Memory>
        requires { V.fits path.now }
        ensures { (us vs : List Seen) → Considers V.holds self.now us vs → IfOk result (λ found. found ≡ value (writes_at t (us ++ vs)) path.now) }
    {
        match &self.newer {
            Some(newer) => get_merged(self.versions, newer, path, t),
            None => self.versions.get_at(path, t),
        }
    }

    fn rows_beneath(&self, path: &Path, t: HybridTime) -> Result<Rows, Memory>
        requires { V.fits path.now }
        ensures { (us vs : List Seen) → Considers V.holds self.now us vs → IfOk result (λ rows. rows ≡ beneath (writes_at t (us ++ vs)) path.now) }
    {
        match &self.newer {
            Some(newer) => scan_merged(self.alloc, self.versions, newer, path, t),
            None => self.versions.scan_at(path, t),
        }
    }
}

// A set of these versions, where there are any.
fn newer_of<V: Versions + Drop>(versions: &V, list: Vec<Version>) -> Result<Option<V>, Memory>
    requires { AllByRecursion (λ (v : Seen). V.fits v.path) list.items }
    ensures { IfOk result (λ newer. NewerHolds V.holds newer (with_versions [] list.items)) }
{
    if list.is_empty() {
        return Ok(None);
    }
    let mut newer = versions.empty_like()?;
    newer.add_all(list)?;
    Ok(Some(newer))
}

fn push_all(rows: &mut Rows, more: Rows) -> Result<(), Memory>
    ensures { OnOk result (rows.new ≡ rows.old ++ more) }
{
    for row in more.into_items() {
        rows.push(row)?;
    }
    Ok(())
}
