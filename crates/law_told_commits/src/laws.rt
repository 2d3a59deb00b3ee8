//! What sessions are told of commits in every run, for proofs of callers. A call does nothing.
ghost use Rattle.law_told_commits.specs.Laws.{CommitTimesAreTold, ToldCommitsAreThere};

/// Where Committed is told of a transaction, it is committed at no other time than the one told.
pub fn commit_times_are_told()
    ensures { CommitTimesAreTold }
{}

/// Where Committed is told of a transaction, a commit of it is in the history, at the time told.
pub fn told_commits_are_there()
    ensures { ToldCommitsAreThere }
{}
