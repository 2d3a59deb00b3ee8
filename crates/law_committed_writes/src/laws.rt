//! Where the writes of a committed transaction are in every run, for proofs of callers. A call does nothing.
ghost use Rattle.law_committed_writes.specs.Laws.{CommittedIsKept, CommittedIsRecorded};

/// Each accepted write of a committed transaction is provisional at the tablet that accepted it, or there is a version
/// there at its path with the commit time.
pub fn committed_is_kept()
    ensures { CommittedIsKept }
{}

/// While something of a committed transaction is provisional at a tablet, its record says that it is committed, and when.
pub fn provisional_is_recorded()
    ensures { CommittedIsRecorded }
{}
