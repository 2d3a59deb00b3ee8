//! What a request carries of others in every run, for proofs of callers. A call does nothing.
ghost use Rattle.law_carried_fates.specs.Laws.{FatesWereTold, AppliesAreOfCommits, CleansAreOfEnded, NotesFollowApplies};

/// Each fate that a write carries was told before, and none of them is Pending.
pub fn fates_were_told()
    ensures { FatesWereTold }
{}

/// What is applied was committed before at that time.
pub fn applies_are_of_commits()
    ensures { AppliesAreOfCommits }
{}

/// What is cleaned was told Aborted or Absent before.
pub fn cleans_are_of_ended()
    ensures { CleansAreOfEnded }
{}

/// What is noted was applied at that tablet before.
pub fn notes_follow_applies()
    ensures { NotesFollowApplies }
{}
