//! What the commands that end a transaction are told, in every run. A call does nothing.
ghost use Rattle.law_endings.specs.Laws.{CommitsToldEnded, KeptAbortsLeaveNone, AbortsToldCommitted, EndedNeverCommits};

/// A commit is told Ended exactly where its record is absent because an abort of its own was kept.
pub fn commits_told_ended()
    ensures { CommitsToldEnded }
{}

/// Where such an abort was kept, the record is absent.
pub fn kept_aborts_leave_none()
    ensures { KeptAbortsLeaveNone }
{}

/// An abort or an end is told Committed exactly where the record is Committed, at its time.
pub fn aborts_told_committed()
    ensures { AbortsToldCommitted }
{}

/// What is told Ended is the transaction that the session has open, and it never commits.
pub fn ended_never_commits()
    ensures { EndedNeverCommits }
{}
