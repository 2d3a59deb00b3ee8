//! The facts on which what a read has to answer rests. A call does nothing.
ghost use Rattle.law_promises.specs.Facts.{TimesAndLeases, PendingPromise, CommitTimes, ToldFates, SessionOrder, ListingPromise, CommittedWrites, RelatedWrites};

/// Times rise over restarts, and with failed appends that a log kept or lost; leases cover them; and their microseconds come
/// from readings.
pub fn times_and_leases()
    ensures { TimesAndLeases }
{}

/// A transaction that was told Pending to a question at a time commits above it, if it does.
pub fn pending_promise()
    ensures { PendingPromise }
{}

/// A transaction commits once, above all its writes, above the time that each of them read at and above its read time.
pub fn commit_times()
    ensures { CommitTimes }
{}

/// What is told Committed is committed at that time, and what is told Aborted never commits. Where a session is told
/// Committed, a commit is in the history, at the time told and at no other.
pub fn told_fates()
    ensures { ToldFates }
{}

/// A transaction writes after its Begin and before its end, and its commit covers what it wrote.
pub fn session_order()
    ensures { SessionOrder }
{}

/// After a tablet listed for a read, it writes only above the read's time and above the local limit that it answered.
pub fn listing_promise()
    ensures { ListingPromise }
{}

/// Each write of what is committed is a version at its tablet, or provisional there with its record; nothing else is a
/// version, and none gives way; once applied, a write is not provisional again.
pub fn committed_writes()
    ensures { CommittedWrites }
{}

/// Related writes are committed in the order in which their tablet took them. So where places agree, two committed
/// transactions with related writes never have one commit time.
pub fn related_writes()
    ensures { RelatedWrites }
{}
