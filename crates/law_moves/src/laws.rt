//! Laws of the moves of a schedule. A call does nothing.
ghost use Rattle.law_moves.specs.Laws.{LastPassesCanBegin, LinesCanStart, OthersStay};

/// A move of another mover changes nothing of whether a mover has an event left.
pub fn others_stay()
    ensures { OthersStay }
{}

/// Where the lines before it were done in their order, the session that a line names has an event left.
pub fn lines_can_start()
    ensures { LinesCanStart }
{}

/// Where a schedule has come to its end, the appliers can make their last passes.
pub fn last_passes_can_begin()
    ensures { LastPassesCanBegin }
{}
