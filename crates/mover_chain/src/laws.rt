//! Laws of plans and movers in every run. A call does nothing.
ghost use Rattle.mover_chain.specs.Laws.{LeftIsCounted, PlansAgree};

/// In a run that follows a plan, places with equal first parts name one tablet.
pub fn plans_agree()
    ensures { PlansAgree }
{}

/// At each moment of a run that does all of a plan, a mover has an event left exactly where the schedules count one.
pub fn left_is_counted()
    ensures { LeftIsCounted }
{}
