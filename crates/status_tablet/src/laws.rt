//! What holds of a status tablet that stands for its entries.
ghost use Rattle.status_tablet.specs.Laws.{TimesRise, TimesAreLeased};

/// The time of a commit is above the times of all earlier entries, and any other time is not below them, over restarts
/// too. Of entries that count: a time whose append failed and was lost may be taken again.
pub fn times_rise()
    ensures { TimesRise }
{}

/// The microseconds of the time of each entry that counts are not above the end of the last lease in the log.
pub fn times_are_leased()
    ensures { TimesAreLeased }
{}
