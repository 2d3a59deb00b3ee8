//! What lists of writes leave, for proofs of callers. A call does nothing.
ghost use Rattle.law_values.specs.Laws.{ReadsShowTheWrites, VersionsLeaveTheFold};

/// Where each tablet of a read answered from writes that have the last word of one list on the paths asked of it, the read
/// shows what this list leaves, with the transaction's own writes on top.
pub fn reads_show_the_writes()
    ensures { ReadsShowTheWrites }
{}

/// Where versions and transactions are the same writes on a path up to a time, what the versions leave there is what the
/// fold of the transactions leaves.
pub fn versions_leave_the_fold()
    ensures { VersionsLeaveTheFold }
{}
