//! What is heard decides what is told, in every run. A call does nothing.
ghost use Rattle.law_heard.specs.Laws.{HeardIsTold};

/// What was served for a told command decides which refusal it is told.
pub fn what_is_heard_decides()
    ensures { HeardIsTold }
{}
