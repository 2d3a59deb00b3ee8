//! What is asked may be served, in every run. A call does nothing.
ghost use Rattle.law_requests.specs.Laws.{ListsAnswerListings, NoEntryIsOutOfMemory, RequestsMayBeServed, ServingIsAllowed};

/// A request in flight is of the line under way, and a machine of the cluster may serve it.
pub fn requests_may_be_served()
    ensures { RequestsMayBeServed }
{}

/// An entry that serves a request in flight by the machine's table makes a run again.
pub fn serving_is_allowed()
    ensures { ServingIsAllowed }
{}

/// No entry that serves has the reply out of memory.
pub fn no_entry_is_out_of_memory()
    ensures { NoEntryIsOutOfMemory }
{}

/// A list for a read is the reply to a listing for a read alone.
pub fn lists_answer_listings()
    ensures { ListsAnswerListings }
{}
