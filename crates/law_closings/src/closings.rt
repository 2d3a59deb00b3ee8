//! A transaction is closed once, in every run. A call does nothing.
ghost use Rattle.law_closings.specs.Laws.{ClosedIsNotEnded};

/// Once a commit or an abort of a transaction was answered so that it is closed, none is served again.
pub fn closed_is_not_ended()
    ensures { ClosedIsNotEnded }
{}
