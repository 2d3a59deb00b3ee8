//! Where a request is refused, in every run. A call does nothing.
ghost use Rattle.law_refusal_rows.specs.Laws.{RowsAreRefused};

/// A request that meets the row of a refusal, over the entries that its machine had of its own, is refused so.
pub fn rows_are_refused()
    ensures { RowsAreRefused }
{}
