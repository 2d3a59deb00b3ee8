//! What holds of what is left of a plan, for proofs of callers. A call does nothing.
ghost use Rattle.txn_plan.specs.Laws.{StaysQuiet, ListsForNoRead};

/// Where what a plan does next takes no memory, nothing after it does.
pub fn stays_quiet()
    ensures { StaysQuiet }
{}

/// A plan never asks a tablet to list for a read.
pub fn lists_for_no_read()
    ensures { ListsForNoRead }
{}
