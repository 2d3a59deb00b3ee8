//! What finished reads and committed writers are promised, in every run. A call does nothing.
ghost use Rattle.law_promises.specs.Laws.{RunsKeepPromises};
ghost use Rattle.law_apart.specs.Laws.{RelatedAreApart};
ghost use Rattle.law_fresh_reads.specs.Laws.{ReadsAreFresh};
ghost use Rattle.law_right_reads.specs.Laws.{ReadsAreRight};
ghost use Rattle.law_steady_reads.specs.Laws.{ReadsAreFinal, ReadsAreSteady};

/// A finished read shows what the fold of all commits up to its final time leaves on the paths asked, with the writes that
/// its transaction had accepted on top.
pub fn reads_are_right()
    ensures { ReadsAreRight }
{}

/// Where clocks agree within the skew before the origin of a finished read, the read is not earlier than each related
/// commit that was told before it.
pub fn reads_are_fresh()
    ensures { ReadsAreFresh }
{}

/// A finished read is told its final time, and how often it met something.
pub fn reads_are_final()
    ensures { ReadsAreFinal }
{}

/// A finished read is not earlier than what its own session was told committed before, nor than an earlier read of it.
pub fn reads_are_steady()
    ensures { ReadsAreSteady }
{}

/// Of two committed snapshot transactions with related writes, one committed not later than the other read.
pub fn writers_are_apart()
    ensures { RelatedAreApart }
{}

/// Every run in which places with equal first parts name one tablet keeps all of this: what is promised of reads, writers,
/// commit times, answers, refusals and last passes.
pub fn runs_keep_promises()
    ensures { RunsKeepPromises }
{}
