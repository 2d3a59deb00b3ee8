//! What writes carry of others in every run, for proofs of callers. A call does nothing.
ghost use Rattle.law_resolving.specs.Laws.{FatesAreOfBegun};

/// Each fate that a write carries was told when its transaction had been begun, and none of them is Pending.
pub fn fates_are_of_begun()
    ensures { FatesAreOfBegun }
{}
