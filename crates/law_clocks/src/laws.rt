//! What holds of times and leases in every run, for proofs of callers. A call does nothing.
ghost use Rattle.law_clocks.specs.Laws.{TimesRise, TimesKeepFloors, CountsForGood, LeasesCover, LastIsGreatest, PendingPromises, ListingsReach, ListingsPromise};

/// A time is not below those of all earlier entries of its actor that count, and above them where the request takes one
/// of its own; over restarts too.
pub fn times_rise()
    ensures { TimesRise }
{}

/// A time is not below the floor of its request, and above it where the request takes one of its own.
pub fn times_keep_floors()
    ensures { TimesKeepFloors }
{}

/// What counted before an entry of its actor that has a time counts for good.
pub fn counts_for_good()
    ensures { CountsForGood }
{}

/// The lease of an actor covers the microseconds of each time of it that counts.
pub fn leases_cover()
    ensures { LeasesCover }
{}

/// Once an actor gave a time since its last restart, no time of it that counts is above its last time.
pub fn last_is_greatest()
    ensures { LastIsGreatest }
{}

/// Where a status tablet answered Pending to a question at a time, each later commit that takes a time there is above it.
pub fn pending_promises()
    ensures { PendingPromises }
{}

/// A tablet that listed for a read has reached the read's time, and fixed the limit by the time that it reached.
pub fn listings_reach()
    ensures { ListingsReach }
{}

/// After a tablet listed for a read, each later write there that takes a time has one above the read's time, and above
/// the local limit, where the read fixed it then.
pub fn listings_promise()
    ensures { ListingsPromise }
{}
