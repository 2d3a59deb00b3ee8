//! Versions in an ordered map.
ghost use Rattle.std.specs.Prelude.{[]};
ghost use Rattle.regular_records.specs.Holding.{Holds};

use crate::adding::{fill_slots, make_places, make_slots};
use crate::decided::Decided;
use crate::newest_beneath::NewestBeneath;
use crate::related::{best_of, time_above};
use crate::scan::rows_at;
use crate::store::VersionStore;
use crate::versions::Versions;
use crate::word::{newest_word, value_at};
use doc_path::Path;
use docdb_base::Memory;
use hybrid_time::HybridTime;
use std::alloc::Global;
use std::marker::Model;
use txn_types::{Bytes, MetAt, Paths, Rows, Version, Window};

/// Versions in an ordered map, by path and then newest first. Every path fits.
#[derive(Drop)]
pub struct MapVersions {
    alloc: Global,
    paths: VersionStore,
    beneath: NewestBeneath,
}

impl Model for MapVersions {
    ghost use Rattle.std.specs.Prelude.{List};
    ghost use Rattle.txn_data.specs.declared.version.Version.{Version as Seen};

    ghost Value = { List Seen };

    ghost use Rattle.regular_records.specs.Store.{versions_of};
    ghost use Rattle.regular_records.specs.Kept.{IsKept};
    ghost use Rattle.regular_records.specs.NewestBeneath.{SumsUp};

    ghost view = { λ m. versions_of m.paths.entries };

    ghost invariant = { λ m. IsKept m.paths × SumsUp m.beneath (versions_of m.paths.entries) };
}

impl MapVersions {
    /// No versions. It takes no memory.
    pub fn new(alloc: Global) -> MapVersions
        ensures { Holds result [] }
    {
        MapVersions {
            alloc,
            paths: VersionStore::new(alloc),
            beneath: NewestBeneath::new(alloc),
        }
    }
}

impl Versions for MapVersions {
    ghost use Rattle.regular_records.specs.Holding.{Holds};

    ghost holds = { Holds };

    ghost fits = { λ _. Unit {0} };

    ghost held_apart = { λ set vs held. held.0 };

    ghost any_order = { λ set us vs held apart same. (apart, λ v. (λ m. (held.1 v).0 ((same v).0 m), λ m. (same v).1 ((held.1 v).1 m))) };

    ghost held_fits = { λ _ _ _ _ _. tt };

    fn add_all(&mut self, list: Vec<Version>) -> Result<(), Memory> {
        make_slots(&mut self.paths, self.alloc, &list)?;
        make_places(&mut self.beneath, &list)?;
        fill_slots(&mut self.paths, &mut self.beneath, list);
        Ok(())
    }

    fn get_at(&self, path: &Path, t: HybridTime) -> Result<Option<Bytes>, Memory> {
        value_at(self.alloc, &self.paths, path.as_parts(), t)
    }

    fn scan_at(&self, path: &Path, t: HybridTime) -> Result<Rows, Memory> {
        rows_at(self.alloc, &self.paths, path.as_parts(), t)
    }

    fn newest_related_above(&self, path: &Path, t: HybridTime) -> Option<HybridTime> {
        time_above(&self.paths, &self.beneath, path.as_parts(), t)
    }

    fn window(&self, paths: &Paths, t: HybridTime, w: &Window) -> Result<Option<MetAt>, Memory> {
        match best_of(&self.paths, &self.beneath, paths.items(), t, w) {
            None => Ok(None),
            Some(met) => {
                let path = Path::of_parts(self.alloc, met.path)?;
                Ok(Some(MetAt {
                    at: met.key.at,
                    path,
                }))
            }
        }
    }

    fn decided_at(&self, path: &Path, t: HybridTime) -> Option<Decided> {
        match newest_word(&self.paths, path.as_parts(), t) {
            None => None,
            Some(word) => Some(Decided {
                at: *word.at,
                number: word.number,
                parts: word.parts,
            }),
        }
    }

    fn empty_like(&self) -> Result<MapVersions, Memory> {
        Ok(MapVersions::new(self.alloc))
    }
}
