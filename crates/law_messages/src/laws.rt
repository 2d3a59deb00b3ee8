//! What holds of messages in flight in every run, for proofs of callers. A call does nothing.
ghost use Rattle.law_messages.specs.Laws.{IdleIsQuiet, AskedIsNext, AnsweredIsNext};

/// A mover between two commands has nothing in flight.
pub fn idle_is_quiet()
    ensures { IdleIsQuiet }
{}

/// A request in flight is the one that its mover's program asks next.
pub fn asked_is_next()
    ensures { AskedIsNext }
{}

/// And so was one whose reply is in flight.
pub fn answered_is_next()
    ensures { AnsweredIsNext }
{}
