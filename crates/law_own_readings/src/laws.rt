//! Where finished reads have their origins in every run, for proofs of callers. A call does nothing.
ghost use Rattle.law_own_readings.specs.Laws.{OriginsShow};

/// In every run, where the session of a finished read recorded a reading from the read's Start on, that Start is the
/// read's origin. Else the origin is the Start of the begin that the session was told of last.
pub fn origins_show()
    ensures { OriginsShow }
{}
