//! A run and its parts. A call does nothing.
ghost use Rattle.law_parts.specs.Parts.{OneMoreIsARun, PartsMakeARun, RunsHaveParts};

/// A history whose parts are allowed and whose messages match is a run.
pub fn parts_make_a_run()
    ensures { PartsMakeARun }
{}

/// Each part of a run is allowed, and its messages match.
pub fn runs_have_parts()
    ensures { RunsHaveParts }
{}

/// A run with one entry more, which its actor may do over its own entries and which matches the messages, is a run.
pub fn one_more_is_a_run()
    ensures { OneMoreIsARun }
{}
