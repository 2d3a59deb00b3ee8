//! The order of related writes in every run, for proofs of callers. A call does nothing.
ghost use Rattle.law_write_order.specs.Laws.{RelatedWritesAreInOrder};

/// Of two related writes of different transactions at a tablet, both committed in the end, the earlier one is committed
/// before the later one, and not above the time that the later one read at; single writes are among them.
pub fn related_writes_are_in_order()
    ensures { RelatedWritesAreInOrder }
{}
