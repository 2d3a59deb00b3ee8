//! What holds of what is left of a pass, for proofs of callers. A call does nothing.
ghost use Rattle.intent_applier.specs.Laws.{ListsForNoRead};

/// A pass never asks a tablet to list for a read.
pub fn lists_for_no_read()
    ensures { ListsForNoRead }
{}
