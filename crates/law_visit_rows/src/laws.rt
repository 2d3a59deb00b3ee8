//! What visits of reads consider in every run, for proofs of callers. A call does nothing.
ghost use Rattle.law_visit_rows.specs.Laws.{VisitsShowTheWrites};

/// A visit collects the rows of the writes of all that is committed up to its time.
pub fn visits_show_the_writes()
    ensures { VisitsShowTheWrites }
{}
