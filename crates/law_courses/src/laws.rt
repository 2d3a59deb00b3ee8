//! The courses of told commands in every run, for proofs of callers. A call does nothing.
ghost use Rattle.law_courses.specs.Laws.{ToldCommandsCameAbout};

/// Each told command came about by the answers to its requests, one after another since its start, where out of memory may
/// have been heard in place of one; or out of memory is told.
pub fn told_commands_came_about()
    ensures { ToldCommandsCameAbout }
{}
