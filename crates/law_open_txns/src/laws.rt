//! What the requests of an open transaction are answered in every run, for proofs of callers. A call does nothing.
ghost use Rattle.law_open_txns.specs.Laws.{WritesAreAnswered, EndsAreAnswered};

/// A write is accepted at the time that it took, with its append taken; or its append failed, and a fault of the log is
/// told; or it is refused, takes no time and has nothing to log.
pub fn writes_are_answered()
    ensures { WritesAreAnswered }
{}

/// A request to commit or to abort is answered so that it closes the transaction; or its append failed, and a fault of
/// the log is told; or it is refused, and has nothing to log.
pub fn ends_are_answered()
    ensures { EndsAreAnswered }
{}
