//! What holds of a log that stands for the entries of an actor.
ghost use Rattle.leased_log.specs.Stands.{LogState, IsSame, StandsStill};
ghost use Rattle.leased_log.specs.Laws.{TimesRise, TimesAreLeased};

/// A log of which nothing changed but the store's room and counts stands for the entries that it stood for.
pub fn the_same_log_stands()
    ensures { (old new : LogState) → IsSame old new → StandsStill old new }
{}

/// The time that an entry takes is above the times of all earlier entries of the actor where it is one of its own (of a
/// Write, a Single or a Commit), and else not below them, over restarts too. Of entries that count: a time whose append
/// failed and was lost may be taken again.
pub fn times_rise()
    ensures { TimesRise }
{}

/// The microseconds of the time of each entry that counts are not above the end of the last lease in the log.
pub fn times_are_leased()
    ensures { TimesAreLeased }
{}
