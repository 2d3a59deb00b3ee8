//! Where the microseconds of all times of a run come from, for proofs of callers. A call does nothing.
ghost use Rattle.law_time_sources.specs.Laws.{TimesAreGrounded};

/// The microseconds of the times that stand in an entry are 0, or a reading that was recorded up to then. Of the end of a
/// window, of limits and of refusals nothing is said.
pub fn times_are_grounded()
    ensures { TimesAreGrounded }
{}
