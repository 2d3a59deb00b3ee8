//! What finished reads show in every run, for proofs of callers. A call does nothing.
ghost use Rattle.law_right_reads.specs.Laws.{CommitsAreAboveReads, ReadsAreRight};

/// A transaction commits, if it does, above the time of each finished read inside it.
pub fn commits_are_above_reads()
    ensures { CommitsAreAboveReads }
{}

/// Each finished read shows what all commits up to its final time leave, with its transaction's own writes on top.
pub fn reads_are_right()
    ensures { ReadsAreRight }
{}
