//! What becomes of a transaction in every run, for proofs of callers. A call does nothing.
ghost use Rattle.law_fates.specs.Laws.{CommitsOnce, ToldCommittedIs, ToldAbortedNeverCommits, PendingCommitsAbove};

/// A transaction commits at one time at most.
pub fn commits_once()
    ensures { CommitsOnce }
{}

/// A transaction of which Committed was told is committed at that time.
pub fn told_committed_is_committed()
    ensures { ToldCommittedIs }
{}

/// A transaction of which Aborted was told never commits.
pub fn told_aborted_never_commits()
    ensures { ToldAbortedNeverCommits }
{}

/// A transaction of which Pending was told to a question at a time commits above it, if it does.
pub fn pending_commits_above()
    ensures { PendingCommitsAbove }
{}
