//! What a status tablet has forgotten in every run, for proofs of callers. A call does nothing.
ghost use Rattle.law_forgetting.specs.Laws.{ToldAbsentIsForgotten};

/// Where a committed transaction was told Absent after it was begun, all tablets that its commit named have applied it.
pub fn told_absent_is_forgotten()
    ensures { ToldAbsentIsForgotten }
{}
