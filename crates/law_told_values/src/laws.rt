//! What is told was given by lines, in every run. A call does nothing.
ghost use Rattle.law_told_values.specs.Given.{WhatIsToldWasGiven};

/// Each path and each value that is told was given by a line that was started.
pub fn what_is_told_was_given()
    ensures { WhatIsToldWasGiven }
{}
