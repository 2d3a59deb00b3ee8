//! Where lines send what they write in every run, for proofs of callers. A call does nothing.
ghost use Rattle.law_places.specs.Laws.{WritesArePlaced};

/// A write goes to the tablet of a place that a line named before, with its path.
pub fn writes_are_placed()
    ensures { WritesArePlaced }
{}
