//! What a refused command asked, in every run. A call does nothing.
ghost use Rattle.law_asked.specs.Laws.{AbortsAreAsked, RestartsAreTold};

/// A command that is told a refusal asked an Abort just where it is a put or a del that the refusal closes, once and last, or an
/// abort or an end.
pub fn aborts_are_asked()
    ensures { AbortsAreAsked }
{}

/// Where a restart was done for a command that is told a refusal, the command is that restart, and the refusal out of memory.
pub fn restarts_are_told()
    ensures { RestartsAreTold }
{}
