//! The accepted writes of a transaction in every run, for proofs of callers. A call does nothing.
ghost use Rattle.law_write_numbers.specs.Laws.{NumbersRise, OpenKeepsItsWrites};

/// Of two accepted writes of a transaction the later one has the greater number.
pub fn numbers_rise()
    ensures { NumbersRise }
{}

/// What a session keeps of its open transaction as accepted is what was accepted, where no command is under way.
pub fn open_keeps_its_writes()
    ensures { OpenKeepsItsWrites }
{}
