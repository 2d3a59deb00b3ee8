//! Entries in the order of their stamps. A call does nothing.
ghost use Rattle.law_stamps.specs.Merging.{MergedPartsMakeARun, PartsAreTheHistory, PartsMayBeMerged};
ghost use Rattle.law_stamps.specs.Stamps.{SeatsMakeARun, StampsMatch};

/// In the history of a stage that keeps the tables, what is served and heard is in flight.
pub fn stamps_match()
    ensures { StampsMatch }
{}

/// The entries of all seats of a closed stage, in the order of their stamps, are a run where each seat keeps its table.
pub fn seats_make_a_run()
    ensures { SeatsMakeARun }
{}

/// The parts of the seats of a closed stage may be merged: no stamp stands twice in them.
pub fn parts_may_be_merged()
    ensures { PartsMayBeMerged }
{}

/// Merged, the parts of the seats of a closed stage are its history.
pub fn parts_are_the_history()
    ensures { PartsAreTheHistory }
{}

/// Merged, the parts of the seats of a closed stage are a run where each seat keeps its table.
pub fn merged_parts_make_a_run()
    ensures { MergedPartsMakeARun }
{}
