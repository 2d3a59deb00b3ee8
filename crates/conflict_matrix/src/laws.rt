//! What holds of the intents of snapshot writes and of what a write is answered, for proofs of callers. A call does nothing.
ghost use Rattle.conflict_matrix.specs.Laws.{WritesMeetWhereRelated, LeastOpenIsConflict, OverlapIsGreatestCommit};

/// The intents of two snapshot writes conflict exactly where their paths are related.
pub fn writes_meet_where_related()
    ensures { WritesMeetWhereRelated }
{}

/// Of the transactions found on related paths, the least that is open is the conflict that a tablet answers.
pub fn least_open_is_conflict()
    ensures { LeastOpenIsConflict }
{}

/// The newest related version and the transactions found on related paths give the overlap that a tablet answers.
pub fn overlap_is_greatest_commit()
    ensures { OverlapIsGreatestCommit }
{}
