//! Committed snapshot transactions with related writes, for proofs of callers. A call does nothing.
ghost use Rattle.law_apart.specs.Laws.{RelatedAreApart};

/// Each two different committed snapshot transactions with related writes are apart.
pub fn related_transactions_are_apart()
    ensures { RelatedAreApart }
{}
