//! What a refusal leaves, and where it is told, in every run. A call does nothing.
ghost use Rattle.law_leaves.specs.Laws.{RefusalsLeave, ConditionsDecide};

/// Each refusal that is told leaves the session and the logs as `Leaves` says.
pub fn refusals_leave()
    ensures { RefusalsLeave }
{}

/// A command that meets the condition of a refusal is told it, or out of memory.
pub fn conditions_decide()
    ensures { ConditionsDecide }
{}
