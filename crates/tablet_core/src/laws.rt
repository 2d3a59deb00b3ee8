//! What holds of the times of a tablet that stands for its entries.
ghost use Rattle.tablet_core.specs.Laws.{TimesRise, TimesAreLeased};

use crate::tablet_core::TabletCore;
use docdb_outside::LogStore;
use regular_records::Versions;

/// The time of a write is above the times of all earlier entries, and any other time is not below them, over restarts too. Of
/// entries that count: a time whose append failed and was lost may be taken again. A call does nothing.
pub fn times_rise<V: Versions + Drop, L: LogStore>(_tablet: &TabletCore<V, L>)
    ensures { TimesRise V.holds _tablet.now }
{}

/// The microseconds of the time of each entry that counts are not above the end of the last lease in the log. A call does
/// nothing.
pub fn times_are_leased<V: Versions + Drop, L: LogStore>(_tablet: &TabletCore<V, L>)
    ensures { TimesAreLeased V.holds _tablet.now }
{}
