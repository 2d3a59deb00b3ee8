//! What finished reads did in every run, for proofs of callers. A call does nothing.
ghost use Rattle.law_visits.specs.Laws.{ReadsVisitTheirTablets};

/// Each finished read visited each of its tablets at its final time, and each with its window at a time not above that; the
/// two may be one visit.
pub fn reads_visit_their_tablets()
    ensures { ReadsVisitTheirTablets }
{}
