//! What a pass leaves, once no session is at work any more, in every run. A call does nothing.
ghost use Rattle.law_left.specs.Laws.{PassesSettle, LastPassesSettle, PlansSettle};

/// If no session had a command under way since the Start of a pass, then its tablet is settled with the number that the pass
/// was told as left.
pub fn passes_settle()
    ensures { PassesSettle }
{}

/// The same of the last pass of an applier that has no pass under way.
pub fn last_passes_settle()
    ensures { LastPassesSettle }
{}

/// If all of a plan is done, then each tablet is settled whose last pass was told a number as left.
pub fn plans_settle()
    ensures { PlansSettle }
{}
