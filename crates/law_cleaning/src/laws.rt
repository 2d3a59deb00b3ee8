//! What passes clean in every run, for proofs of callers. A call does nothing.
ghost use Rattle.law_cleaning.specs.Laws.{CleansAreOfBegun};

/// What is cleaned was told Aborted or Absent before, when it had been begun.
pub fn cleans_are_of_begun()
    ensures { CleansAreOfBegun }
{}
