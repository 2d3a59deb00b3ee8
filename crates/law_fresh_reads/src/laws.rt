//! Reads are fresh, in every run, for proofs of callers. A call does nothing.
ghost use Rattle.law_fresh_reads.specs.Laws.{ReadsAreFresh};

/// Where the clocks agree within the skew before a finished read, each related commit that was told before its origin is
/// not later than the read.
pub fn reads_are_fresh()
    ensures { ReadsAreFresh }
{}
