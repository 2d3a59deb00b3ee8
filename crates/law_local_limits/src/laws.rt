//! The local limits of reads in every run, for proofs of callers. A call does nothing.
ghost use Rattle.law_local_limits.specs.Laws.{GivenLimitsWereFixed, LimitsOfReadsWereFixed, ListingsPromiseTheirLimits};

/// A limit that a listing read gives was answered before by the same tablet, to a listing read of the same command or
/// transaction for which no limit was known.
pub fn given_limits_were_fixed()
    ensures { GivenLimitsWereFixed }
{}

/// After any listing read a tablet adds only above the read's time, and above the limit that it answered.
pub fn listings_promise_their_limits()
    ensures { ListingsPromiseTheirLimits }
{}

/// A limit that a visit of a finished read gives was fixed by that tablet since the read's origin.
pub fn limits_of_reads_were_fixed()
    ensures { LimitsOfReadsWereFixed }
{}
