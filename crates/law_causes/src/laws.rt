//! Each refusal that is told has its cause, in every run. A call does nothing.
ghost use Rattle.law_causes.specs.Laws.{EachRefusalHasItsCause};

/// Each refusal that a session or an applier is told has its cause.
pub fn each_refusal_has_its_cause()
    ensures { EachRefusalHasItsCause }
{}
