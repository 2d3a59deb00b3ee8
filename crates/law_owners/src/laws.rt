//! What holds of transactions and their sessions and status tablets in every run, for proofs of callers. A call does
//! nothing.
ghost use Rattle.law_owners.specs.Laws.{RequestsAreHomed, IdsAreUsedOnce, PendingIsKept};

/// Each request that is served is one of the actor's own table, by the transaction's own session where it is its own to
/// ask, at the transaction's own status tablet where it is about its record.
pub fn requests_are_homed()
    ensures { RequestsAreHomed }
{}

/// An id is used once.
pub fn ids_are_used_once()
    ensures { IdsAreUsedOnce }
{}

/// Where a transaction was told Pending to a question at a time, it commits later only above it, wherever either was
/// asked.
pub fn pending_is_kept()
    ensures { PendingIsKept }
{}
