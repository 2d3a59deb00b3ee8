//! How versions are added: first all slots and places are made, for which memory may run out, and then they are filled.
ghost use Rattle.std.specs.Prelude.{◌≡◌, List, OnOk, OnErr};
ghost use Rattle.std.specs.BTreeMap.{IsOrdered};
ghost use Rattle.txn_data.specs.declared.version.Version.{Version as Seen};
ghost use Rattle.txn_types.specs.Tablet.{with_versions};
ghost use Rattle.regular_records.specs.Holding.{Holds};
ghost use Rattle.regular_records.specs.Store.{versions_of};
ghost use Rattle.regular_records.specs.Kept.{IsKept, version_key_order};
ghost use Rattle.doc_path.specs.Path.{Parts};
ghost use Rattle.regular_records.specs.Adding.{HasSlot, HaveSlots, Replaces, with_slot};
ghost use Rattle.regular_records.specs.NewestBeneath.{newest_at, HasPlaces, HavePlaces, SumsUp};

use crate::newest_beneath::NewestBeneath;
use crate::store::{PathVersions, VersionStore};
use crate::version_key::VersionKey;
use crate::version_value::VersionValue;
use docdb_base::{Memory, TryCopy};
use std::alloc::Global;
use txn_types::Version;

/// Makes a slot for each version that has none. No version is added or taken out, whatever the answer.
pub fn make_slots(paths: &mut VersionStore, alloc: Global, list: &[Version]) -> Result<(), Memory>
    requires { IsKept paths.old }
    ensures kept { IsKept paths.new }
    ensures versions { versions_of paths.new.entries ≡ versions_of paths.old.entries }
    ensures slots { OnOk result (HaveSlots paths.new.entries list.now) }
{
    for version in list {
        make_slot(paths, alloc, version)?;
    }
    Ok(())
}

fn make_slot(paths: &mut VersionStore, alloc: Global, version: &Version) -> Result<(), Memory>
    requires { IsKept paths.old }
    ensures kept { IsKept paths.new }
    ensures versions { versions_of paths.new.entries ≡ versions_of paths.old.entries }
    ensures slot { OnOk result (HasSlot paths.new.entries version.now) }
    ensures slots { (v : Seen) → HasSlot paths.old.entries v → HasSlot paths.new.entries v }
{
    let key = VersionKey {
        at: version.at,
        number: version.number,
    };
    if let Some(versions) = paths.get_mut(version.path.as_parts()) {
        return add_slot(versions, key);
    }
    let mut versions = PathVersions::new(alloc);
    add_slot(&mut versions, key)?;
    let parts = version.path.try_copy(alloc)?.into_parts();
    paths.insert(parts, versions)?;
    Ok(())
}

fn add_slot(versions: &mut PathVersions, key: VersionKey) -> Result<(), Memory>
    ensures ordered { IsOrdered version_key_order versions.old → IsOrdered version_key_order versions.new }
    ensures ok { OnOk result (versions.new.entries ≡ with_slot key versions.old.entries) }
    ensures memory { OnErr result (versions.new.entries ≡ versions.old.entries) }
{
    if !versions.contains_key(&key) {
        versions.insert(key, None)?;
    }
    Ok(())
}

/// Makes the places for the times of these versions. No time changes, whatever the answer.
pub fn make_places(beneath: &mut NewestBeneath, list: &[Version]) -> Result<(), Memory>
    ensures times { (q : Parts) → newest_at q beneath.new ≡ newest_at q beneath.old }
    ensures places { OnOk result (HavePlaces list.now beneath.new) }
{
    for version in list {
        beneath.make_places(&version.path)?;
    }
    Ok(())
}

/// Puts each version into its slot, one after another, and raises the times of the prefixes of its path.
pub fn fill_slots(paths: &mut VersionStore, beneath: &mut NewestBeneath, list: Vec<Version>)
    requires kept { IsKept paths.old }
    requires slots { HaveSlots paths.old.entries list.items }
    requires places { HavePlaces list.items beneath.old }
    ensures kept { IsKept paths.new }
    ensures sums { SumsUp beneath.old (versions_of paths.old.entries) → SumsUp beneath.new (versions_of paths.new.entries) }
    ensures holds { (vs : List Seen) → Holds (versions_of paths.old.entries) vs → Holds (versions_of paths.new.entries) (with_versions vs list.items) }
{
    for version in list {
        beneath.raise(version.path.as_parts(), version.at);
        fill_slot(paths, version);
    }
}

fn fill_slot(paths: &mut VersionStore, version: Version)
    requires kept { IsKept paths.old }
    requires slot { HasSlot paths.old.entries version }
    ensures kept { IsKept paths.new }
    ensures versions { Replaces version (versions_of paths.old.entries) (versions_of paths.new.entries) }
    ensures slots { (v : Seen) → HasSlot paths.old.entries v → HasSlot paths.new.entries v }
{
    let Version {
        path,
        at,
        wrote,
        number,
        op,
    } = version;
    if let Some(versions) = paths.get_mut(path.as_parts()) {
        if let Some(slot) = versions.get_mut(&VersionKey { at, number }) {
            *slot = Some(VersionValue { wrote, op });
        }
    }
}
