//! What the refusals of machines say, in every run. A call does nothing.
ghost use Rattle.law_refusals.specs.Laws.{RefusalsAreExplained, FaultsAreTold, DownAfterFault};

/// Each refusal that a machine serves is explained by the entries that it had of its own.
pub fn refusals_are_explained()
    ensures { RefusalsAreExplained }
{}

/// A machine answers LogFault exactly where an append or a load of it failed, and no second time without a restart, but for a load.
pub fn faults_are_told()
    ensures { FaultsAreTold }
{}

/// A machine answers Down only after it answered LogFault, and only until it is restarted.
pub fn down_follows_a_fault()
    ensures { DownAfterFault }
{}
