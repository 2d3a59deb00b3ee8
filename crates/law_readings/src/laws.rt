//! Where the microseconds of times come from in every run, for proofs of callers. A call does nothing.
ghost use Rattle.law_readings.specs.Laws.{TimesComeFrom};

/// The microseconds of a time of a machine are 0, or a reading that the machine recorded up to then, or those of a floor
/// that it was asked for up to then.
pub fn times_come_from()
    ensures { TimesComeFrom }
{}
