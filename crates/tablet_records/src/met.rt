//! What a read meets in its window.
ghost use Rattle.std.specs.Prelude.{◌≡◌, ◌&&◌, List, [], ◌∷◌, ◌++◌, nat_lt, nat_le, if◌then◌else◌, IfOk};
ghost use Rattle.std.specs.List.{All, list_any};
ghost use Rattle.doc_path.specs.Path.{related};
ghost use Rattle.txn_data.specs.declared.version.Version.{Version as Seen};
ghost use Rattle.txn_types.specs.Tablet.{met_under, met_in};
ghost use Rattle.regular_records.specs.Records.{better};

use doc_path::Path;
use docdb_base::{Memory, TryCopy};
use hybrid_time::HybridTime;
use regular_records::Versions;
use regular_records::laws::met_of_both;
use std::alloc::Global;
use txn_types::{MetAt, Paths, Version, Window};

/// What a read of `paths` at `t` meets in its window, where it has one, among the versions of a tablet and this list.
pub(crate) fn met_among<V: Versions>(
    alloc: Global,
    versions: &V,
    list: &[Version],
    paths: &Paths,
    t: HybridTime,
    window: Option<Window>,
) -> Result<Option<MetAt>, Memory>
    requires { All V.fits paths.now }
    ensures { (us : List Seen) → V.holds versions.now us → IfOk result (λ met. met ≡ met_under window t paths.now (us ++ list.now)) }
{
    met_of_both();
    let Some(window) = window else {
        return Ok(None);
    };
    let mut met = versions.window(paths, t, &window)?;
    for version in list {
        met = with_version(alloc, met, version, paths.items(), t, &window)?;
    }
    Ok(met)
}

// What was met, or this version, where it is met too and is better.
fn with_version(
    alloc: Global,
    met: Option<MetAt>,
    version: &Version,
    paths: &[Path],
    t: HybridTime,
    window: &Window,
) -> Result<Option<MetAt>, Memory>
    ensures { IfOk result (λ found. found ≡ better met (met_in window.now t paths.now (version.now ∷ []))) }
{
    if !is_in_window(version, t, window) {
        return Ok(met);
    }
    if !is_related(&version.path, paths) {
        return Ok(met);
    }
    if !is_better(&met, version) {
        return Ok(met);
    }
    let path = version.path.try_copy(alloc)?;
    Ok(Some(MetAt {
        at: version.at,
        path,
    }))
}

// Whether the commit time of a version is in the window, and it was provisional not later than the local limit.
fn is_in_window(version: &Version, t: HybridTime, window: &Window) -> bool
    ensures { result ≡ (nat_lt t version.now.at && nat_le version.now.at window.now.g && nat_le version.now.wrote window.now.limit) }
{
    t < version.at && version.at <= window.g && version.wrote <= window.limit
}

fn is_related(path: &Path, paths: &[Path]) -> bool
    ensures { result ≡ list_any (related path.now) paths.now }
{
    paths.iter().any(|other| path.related(other))
}

// Whether a version that is met takes the place of what was met: its commit time is greater, or its path not greater where
// the times tie.
fn is_better(met: &Option<MetAt>, version: &Version) -> bool
    ensures { better met.now (Some (record { at = version.now.at; path = version.now.path })) ≡ (if result then Some (record { at = version.now.at; path = version.now.path }) else met.now) }
{
    match met {
        None => true,
        Some(met) => {
            met.at < version.at || (met.at == version.at && version.path.cmp(&met.path).is_le())
        }
    }
}
