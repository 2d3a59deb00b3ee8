//! What a session asks of its transactions in every run, for proofs of callers. A call does nothing.
ghost use Rattle.law_session_order.specs.Laws.{WritesAreBegun, NoWriteAfterEnd, CommitsCover, CommitsAboveWrites};

/// A transaction writes only once its Begin was answered Begun.
pub fn writes_are_begun()
    ensures { WritesAreBegun }
{}

/// Once a commit or an abort of a transaction was to be logged, the transaction writes no more.
pub fn no_write_after_end()
    ensures { NoWriteAfterEnd }
{}

/// A request to commit covers all that the transaction wrote before.
pub fn commits_cover()
    ensures { CommitsCover }
{}

/// A transaction commits above the times of all its writes and above the time that each of them read at; and one with a
/// write whose append failed never commits.
pub fn commits_above_writes()
    ensures { CommitsAboveWrites }
{}
