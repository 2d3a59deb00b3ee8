//! What is asked may be served.
//!
//! Laws over every run. A request in flight goes to a machine of the cluster, is of that machine's table, names paths and
//! values of the line under way, and is within the limits that a machine asks for. An entry that serves it is always allowed,
//! so the laws over entries may be used for what is about to be served. No machine answers out of memory in an entry, and a
//! list for a read is answered to a listing for a read alone. A call does nothing.
#![tactic(auto)]

mod laws;

pub use laws::{
    lists_answer_listings, no_entry_is_out_of_memory, requests_may_be_served, serving_is_allowed,
};
