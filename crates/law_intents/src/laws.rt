//! What a tablet holds of a transaction in every run, for proofs of callers. A call does nothing.
ghost use Rattle.law_intents.specs.Laws.{AppliedStaysApplied};

/// Once a tablet has answered that a transaction is applied there, it holds no provisional write of it any more.
pub fn applied_stays_applied()
    ensures { AppliedStaysApplied }
{}
