//! Names a stage in types.
use std::marker::Brand;

/// Names a stage in types, with the cluster that it is of. Of a value in a channel or under a lock nothing is known but
/// what its type says, so that type takes such a name. The members exist in contracts alone, and a call that passes
/// `Brand` picks them.
pub trait StageName {
    ghost use Rattle.std.specs.Prelude.{ℕ, List, Option};
    ghost use Rattle.atomic_table.specs.Seated.{TableId};
    ghost use Rattle.txn_data.specs.declared.config.Config.{Config};

    // The table of the stage.
    ghost table: { TableId };

    // The config of the cluster.
    ghost config: { Config };

    // The readings that the clock tells, one or none for each node.
    ghost readings: { List (Option ℕ) };
}

impl StageName for Brand {
    ghost use Rattle.std.specs.Prelude.{[]};
    ghost use Rattle.actor_table.specs.Values.{no_table, no_config};

    ghost table = { no_table };

    ghost config = { no_config };

    ghost readings = { [] };
}
