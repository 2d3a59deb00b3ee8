//! Machines give their stores back.
ghost use Rattle.std.specs.Prelude.{◌≡◌, ◌+◌, ◌++◌, ◌≤◌, length, map};
ghost use Rattle.std.specs.Vec.{vec_capacity};
ghost use Rattle.world_machines.specs.Stores.{kept_by, store_of};

use docdb_outside::LogStore;
use regular_records::MapVersions;
use status_tablet::StatusTablet;
use tablet_core::TabletCore;

/// Puts the stores of tablets at the end of `stores`, in their order. It takes no memory.
pub(crate) fn put_tablets<L: LogStore + Drop>(
    stores: &mut Vec<L>,
    tablets: Vec<TabletCore<MapVersions, L>>,
)
    requires { length stores.old.items + length tablets.items ≤ vec_capacity stores.old }
    ensures stores { map (store_of L.held L.faults) stores.new.items ≡ map (store_of L.held L.faults) stores.old.items ++ map (λ t. kept_by t.log) tablets.items }
    ensures capacity { vec_capacity stores.new ≡ vec_capacity stores.old }
{
    for tablet in tablets {
        stores.push_reserved(tablet.into_log());
    }
}

/// The same for status tablets.
pub(crate) fn put_statuses<L: LogStore + Drop>(stores: &mut Vec<L>, statuses: Vec<StatusTablet<L>>)
    requires { length stores.old.items + length statuses.items ≤ vec_capacity stores.old }
    ensures stores { map (store_of L.held L.faults) stores.new.items ≡ map (store_of L.held L.faults) stores.old.items ++ map (λ t. kept_by t.log) statuses.items }
    ensures capacity { vec_capacity stores.new ≡ vec_capacity stores.old }
{
    for status in statuses {
        stores.push_reserved(status.into_log());
    }
}
