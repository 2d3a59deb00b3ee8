//! Machines are opened on stores.
ghost use Rattle.std.specs.Prelude.{◌≡◌, ◌≤◌, [], drop, length, reverse};
ghost use Rattle.std.specs.List.{All};
ghost use Rattle.std.specs.Vec.{vec_capacity};
ghost use Rattle.world_machines.specs.Machines.{EachAt, StatusStands, TabletStands};
ghost use Rattle.world_machines.specs.Stores.{store_at};

use docdb_outside::LogStore;
use regular_records::MapVersions;
use status_tablet::StatusTablet;
use std::alloc::Global;
use tablet_core::TabletCore;
use txn_types::Config;

/// Opens each tablet of a cluster on the store that is the last of `stores` then. It takes no memory.
pub(crate) fn open_tablets<L: LogStore + Drop>(
    alloc: Global,
    config: &Config,
    stores: &mut Vec<L>,
    tablets: &mut Vec<TabletCore<MapVersions, L>>,
)
    requires lease { config.now.lease_us ≤ 60000000 }
    requires enough { config.now.tablets ≤ length stores.old.items }
    requires empty { All (λ l. L.held l ≡ []) stores.old.items }
    requires none { tablets.old.items ≡ [] }
    requires room { config.now.tablets ≤ vec_capacity tablets.old }
    ensures opened { EachAt (λ k t. TabletStands config.now (store_at L.held L.faults (reverse stores.old.items) k) [] k t) config.now.tablets tablets.new.items }
    ensures rest { reverse stores.new.items ≡ drop config.now.tablets (reverse stores.old.items) }
    ensures capacity { vec_capacity stores.new ≡ vec_capacity stores.old }
    ensures empty { All (λ l. L.held l ≡ []) stores.new.items }
{
    for number in 0..config.tablets {
        let Some(store) = stores.pop() else {
            unreachable!();
        };
        let versions = MapVersions::new(alloc);
        tablets.push_reserved(TabletCore::open(alloc, number, config.lease_us, versions, store));
    }
}

/// The same for each status tablet.
pub(crate) fn open_statuses<L: LogStore + Drop>(
    alloc: Global,
    config: &Config,
    stores: &mut Vec<L>,
    statuses: &mut Vec<StatusTablet<L>>,
)
    requires lease { config.now.lease_us ≤ 60000000 }
    requires enough { config.now.status ≤ length stores.old.items }
    requires empty { All (λ l. L.held l ≡ []) stores.old.items }
    requires none { statuses.old.items ≡ [] }
    requires room { config.now.status ≤ vec_capacity statuses.old }
    ensures opened { EachAt (λ j t. StatusStands config.now (store_at L.held L.faults (reverse stores.old.items) j) [] j t) config.now.status statuses.new.items }
    ensures rest { reverse stores.new.items ≡ drop config.now.status (reverse stores.old.items) }
    ensures capacity { vec_capacity stores.new ≡ vec_capacity stores.old }
{
    for number in 0..config.status {
        let Some(store) = stores.pop() else {
            unreachable!();
        };
        statuses.push_reserved(StatusTablet::open(alloc, number, config.lease_us, store));
    }
}
