//! The newest version on a related path.
ghost use Rattle.std.specs.Prelude.{◌≡◌, ◌≤◌, ◌-◌, ◌||◌, ◌&&◌, nat_lt, nat_eq, option_map, length};
ghost use Rattle.doc_path.specs.Path.{path_order};
ghost use Rattle.txn_types.specs.Tablet.{not_after};
ghost use Rattle.regular_records.specs.Store.{path_versions_at, versions_of};
ghost use Rattle.regular_records.specs.Kept.{IsKept};
ghost use Rattle.regular_records.specs.NewestBeneath.{SumsUp, newest_at};
ghost use Rattle.regular_records.specs.Records.{better as better_of};
ghost use Rattle.regular_records.specs.Related.{time_in, start_of, was_written as is_written, newer as newer_of, newer_at, above_upto, found_at, best_from, newest_met, time_of_met, later_time};

use crate::newest_beneath::NewestBeneath;
use crate::scan::begins;
use crate::store::{PathVersions, VersionStore};
use crate::version_key::VersionKey;
use crate::version_value::VersionValue;
use doc_path::{Path, PathPart};
use hybrid_time::HybridTime;
use std::ops::Bound;
use txn_types::Window;

/// The version with the greatest commit time that was found, and with the least path among those of that time.
#[derive(Clone, Copy, Debug)]
pub struct Newest<'a> {
    pub key: &'a VersionKey,
    pub path: &'a [PathPart],
}

/// The greatest commit time above t on a path that is related to this one. It goes down the prefixes of the path, and does
/// not look at what is beneath it.
pub fn time_above(
    paths: &VersionStore,
    beneath: &NewestBeneath,
    path: &[PathPart],
    t: HybridTime,
) -> Option<HybridTime>
    requires { 1 ≤ length path.now }
    ensures { result ≡ later_time t (option_map time_of_met (above_upto t None path.now paths.now (length path.now - 1))) (newest_at path.now beneath.now) }
{
    let newest = beneath.newest(path);
    match newest_above(paths, path, path.len() - 1, t, None) {
        Some(found) => Some(found.key.at.max(newest)),
        None => (t < newest).then_some(newest),
    }
}

/// The newest version in the window above t on a path that is related to this one. It goes down the prefixes of the path,
/// and through what is beneath it where something there is newer than t.
fn newest_related<'a>(
    paths: &'a VersionStore,
    beneath: &NewestBeneath,
    path: &Vec<PathPart>,
    t: HybridTime,
    window: Option<&Window>,
) -> Option<Newest<'a>>
    requires kept { IsKept paths.now }
    requires sums { SumsUp beneath.now (versions_of paths.now.entries) }
    requires some { 1 ≤ length path.now.items }
    ensures { option_map newest_met result ≡ found_at t (option_map (λ w. w.now) window.entry) path.now.items paths.now }
{
    let mut newest = newest_above(paths, path, path.len(), t, window);
    if beneath.newest(path) <= t {
        return newest;
    }
    for (below, versions) in paths.range((Bound::Excluded(path), Bound::Unbounded)) {
        if !begins(path, below) {
            break;
        }
        newest = newer(newest, below, first_met(versions, t, window));
    }
    newest
}

/// The best of what is found at these paths: the greatest time, and the least path with it.
pub fn best_of<'a>(
    paths: &'a VersionStore,
    beneath: &NewestBeneath,
    asked: &[Path],
    t: HybridTime,
    window: &Window,
) -> Option<Newest<'a>>
    requires kept { IsKept paths.now }
    requires sums { SumsUp beneath.now (versions_of paths.now.entries) }
    ensures { option_map newest_met result ≡ best_from t (Some window.now) paths.now None asked.now }
{
    let mut best: Option<Newest<'a>> = None;
    for path in asked {
        best = better(
            best,
            newest_related(paths, beneath, path.as_parts(), t, Some(window)),
        );
    }
    best
}

// The newest on the first so many prefixes of this path.
fn newest_above<'a>(
    paths: &'a VersionStore,
    path: &[PathPart],
    many: usize,
    t: HybridTime,
    window: Option<&Window>,
) -> Option<Newest<'a>>
    requires { many ≤ length path.now }
    ensures { option_map newest_met result ≡ above_upto t (option_map (λ w. w.now) window.entry) path.now paths.now many }
{
    let mut newest: Option<Newest<'a>> = None;
    for i in 0..many {
        newest = newer_on(newest, paths, &path[..i + 1], t, window);
    }
    newest
}

// What was found so far, or what is at exactly this path where its time is greater.
fn newer_on<'a>(
    newest: Option<Newest<'a>>,
    paths: &'a VersionStore,
    path: &[PathPart],
    t: HybridTime,
    window: Option<&Window>,
) -> Option<Newest<'a>>
    ensures { option_map newest_met result ≡ newer_at t (option_map (λ w. w.now) window.entry) (option_map newest_met newest.entry) path.now (path_versions_at path.now paths.now) }
{
    match paths.get_key_value(path) {
        Some((stored, versions)) => newer(newest, stored, first_met(versions, t, window)),
        None => newest,
    }
}

fn newer<'a>(
    newest: Option<Newest<'a>>,
    path: &'a [PathPart],
    key: Option<&'a VersionKey>,
) -> Option<Newest<'a>>
    ensures { option_map newest_met result ≡ newer_of (option_map newest_met newest.entry) path.now (option_map (λ m. m.now.at) key.entry) }
{
    match (newest, key) {
        (Some(found), Some(key)) => {
            if found.key.at < key.at {
                Some(Newest { key, path })
            } else {
                Some(found)
            }
        }
        (None, Some(key)) => Some(Newest { key, path }),
        (found, None) => found,
    }
}

// The newest version of one path that is above t and in the window.
fn first_met<'a>(
    versions: &'a PathVersions,
    t: HybridTime,
    window: Option<&Window>,
) -> Option<&'a VersionKey>
    ensures { option_map (λ m. m.now.at) result ≡ time_in t (option_map (λ w. w.now) window.entry) versions.now }
{
    for (key, slot) in versions.range((start(window), Bound::Unbounded)) {
        if key.at() <= t {
            return None;
        }
        if let Some(value) = slot {
            if was_written(value, window) {
                return Some(key);
            }
        }
    }
    None
}

fn start(window: Option<&Window>) -> Bound<VersionKey>
    ensures { result ≡ start_of (option_map (λ w. w.now) window.entry) }
{
    match window {
        None => Bound::Unbounded,
        Some(window) => Bound::Included(VersionKey {
            at: window.g,
            number: u32::MAX,
        }),
    }
}

// Whether a version was written not later than the local limit of the window.
fn was_written(value: &VersionValue, window: Option<&Window>) -> bool
    ensures { result ≡ is_written (option_map (λ w. w.now) window.entry) value.now }
{
    match window {
        None => true,
        Some(window) => value.wrote <= window.limit,
    }
}

// Of two the one with the greater time, and with the lesser path where the times are equal.
fn better<'a>(met: Option<Newest<'a>>, other: Option<Newest<'a>>) -> Option<Newest<'a>>
    ensures { option_map newest_met result ≡ better_of (option_map newest_met met.entry) (option_map newest_met other.entry) }
{
    match (met, other) {
        (Some(first), Some(second)) => {
            if is_better(&first, &second) {
                Some(second)
            } else {
                Some(first)
            }
        }
        (None, second) => second,
        (first, None) => first,
    }
}

fn is_better(first: &Newest<'_>, second: &Newest<'_>) -> bool
    ensures { result ≡ (nat_lt first.now.key.now.at second.now.key.now.at || (nat_eq first.now.key.now.at second.now.key.now.at && not_after (path_order second.now.path.now first.now.path.now))) }
{
    first.key.at < second.key.at
        || (first.key.at == second.key.at && second.path.cmp(first.path).is_le())
}
