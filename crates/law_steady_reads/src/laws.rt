//! What finished reads are told of their times in every run, for proofs of callers. A call does nothing.
ghost use Rattle.law_steady_reads.specs.Laws.{ReadsAreFinal, ReadsAreSteady};

/// Each finished read is told its final time, and how often it met something.
pub fn reads_are_final()
    ensures { ReadsAreFinal }
{}

/// A finished read is not earlier than what its own session was told committed before, nor than an earlier read of it.
pub fn reads_are_steady()
    ensures { ReadsAreSteady }
{}
