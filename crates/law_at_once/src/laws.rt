//! What a session refuses of its own, in every run. A call does nothing.
ghost use Rattle.law_at_once.specs.Laws.{RefusedAtOnce};

/// A session's own refusals are told where their conditions hold, or out of memory is; and before anything is asked.
pub fn session_refuses_at_once()
    ensures { RefusedAtOnce }
{}
