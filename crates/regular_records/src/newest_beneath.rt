//! The newest time at or beneath each prefix.
ghost use Rattle.std.specs.Prelude.{◌≡◌, ℕ, ◌≤◌, max, length, OnOk, if◌then◌else◌};
ghost use Rattle.doc_path.specs.Path.{Parts, is_prefix};
ghost use Rattle.regular_records.specs.NewestBeneath.{newest_at, HasPlace, HasPlaces};

use doc_path::{Path, PathPart};
use docdb_base::Memory;
use hybrid_time::HybridTime;
use std::alloc::Global;
use std::collections::BTreeMap;

/// The greatest commit time of the versions whose paths begin with a prefix, for each prefix of their paths. It does not
/// know where the versions are kept. The places of a path are made first, for which memory may run out, and raised later.
#[derive(Drop)]
pub struct NewestBeneath {
    alloc: Global,
    times: BTreeMap<Vec<PathPart>, HybridTime>,
}

impl NewestBeneath {
    /// The summary of no versions. It takes no memory.
    pub fn new(alloc: Global) -> NewestBeneath
        ensures { (q : Parts) → newest_at q result ≡ 0 }
    {
        NewestBeneath {
            alloc,
            times: BTreeMap::new(alloc),
        }
    }

    /// The greatest commit time of a version at this path or beneath it, and the time zero where there is none.
    pub fn newest(&self, path: &[PathPart]) -> HybridTime
        ensures { result ≡ newest_at path.now self.now }
    {
        match self.times.get(path) {
            Some(at) => *at,
            None => HybridTime::ZERO,
        }
    }

    /// Makes a place for each prefix of the path. No time changes, whatever the answer.
    pub fn make_places(&mut self, path: &Path) -> Result<(), Memory>
        ensures times { (q : Parts) → newest_at q self.new ≡ newest_at q self.old }
        ensures others { (p : Parts) → HasPlaces p self.old → HasPlaces p self.new }
        ensures places { OnOk result (HasPlaces path.now self.new) }
    {
        let parts = path.as_parts();
        for i in 0..parts.len() {
            self.make_place(&parts[..i + 1])?;
        }
        Ok(())
    }

    // Makes a place for one prefix, where it has none.
    fn make_place(&mut self, prefix: &[PathPart]) -> Result<(), Memory>
        requires least { 1 ≤ length prefix.now }
        requires most { length prefix.now ≤ 5 }
        ensures times { (q : Parts) → newest_at q self.new ≡ newest_at q self.old }
        ensures others { (q : Parts) → HasPlace q self.old → HasPlace q self.new }
        ensures place { OnOk result (HasPlace prefix.now self.new) }
    {
        if !self.times.contains_key(prefix) {
            let parts = Path::of_parts(self.alloc, prefix)?.into_parts();
            self.times.insert(parts, HybridTime::ZERO)?;
        }
        Ok(())
    }

    /// Raises the time of each prefix of the path to that of a version on it, which has this commit time. It takes no memory.
    pub fn raise(&mut self, path: &[PathPart], at: HybridTime)
        requires { HasPlaces path.now self.old }
        ensures times { (q : Parts) → 1 ≤ length q → newest_at q self.new ≡ (if is_prefix q path.now then max at (newest_at q self.old) else newest_at q self.old) }
        ensures places { (p : Parts) → HasPlaces p self.old → HasPlaces p self.new }
    {
        for i in 0..path.len() {
            self.raise_one(&path[..i + 1], at);
        }
    }

    // Raises the time of one prefix.
    fn raise_one(&mut self, prefix: &[PathPart], at: HybridTime)
        requires { HasPlace prefix.now self.old }
        ensures raised { newest_at prefix.now self.new ≡ max at (newest_at prefix.now self.old) }
        ensures others { (q : Parts) → ¬ (q ≡ prefix.now) → newest_at q self.new ≡ newest_at q self.old }
        ensures places { (q : Parts) → HasPlace q self.old → HasPlace q self.new }
    {
        if let Some(time) = self.times.get_mut(prefix) {
            *time = at.max(*time);
        }
    }
}
