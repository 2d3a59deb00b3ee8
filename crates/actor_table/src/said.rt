//! The entry of one step, as contracts see it.
use std::marker::Brand;

/// The entry of one step. Each call picks it.
pub trait Said {
    ghost use Rattle.txn_data.specs.declared.entry.Entry.{Entry};

    ghost said: { Entry };
}

impl Said for Brand {
    ghost use Rattle.actor_table.specs.Steps.{no_entry};

    ghost said = { no_entry };
}
