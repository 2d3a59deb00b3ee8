//! Commit times against read times in every run, for proofs of callers. A call does nothing.
ghost use Rattle.law_commit_times.specs.Laws.{CommitsAreAboveReadTimes};

/// Each snapshot transaction commits, if it does, above its read time: the time of its first finished read, or that of
/// its begin where it has none.
pub fn commits_are_above_read_times()
    ensures { CommitsAreAboveReadTimes }
{}
