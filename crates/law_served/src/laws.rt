//! What was served for told commands in every run, for proofs of callers. A call does nothing.
ghost use Rattle.law_served.specs.Laws.{ToldCommandsRan};

/// Just what was served for a told command made its program come to what is told, or left it where out of memory may be told.
pub fn told_commands_ran()
    ensures { ToldCommandsRan }
{}
