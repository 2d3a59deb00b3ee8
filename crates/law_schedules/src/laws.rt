//! Laws of histories made by a schedule. A call does nothing.
ghost use Rattle.law_schedules.specs.Laws.{CoursesAreScheduled, CoursesDoAll};

/// A run that was made by a schedule, move by move, does all of its plan.
pub fn courses_do_all()
    ensures { CoursesDoAll }
{}

/// Its moves are those that the schedule names over the whole of it.
pub fn courses_are_scheduled()
    ensures { CoursesAreScheduled }
{}
