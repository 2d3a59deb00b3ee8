//! Times and leases in every run.
//!
//! The laws of the clocks of tablets and status tablets, for every history that is a run: over restarts, and with failed
//! appends that a log kept or lost. From them follow what the answer Pending promises, and what a tablet promises that
//! has listed for a read. A call does nothing.
#![tactic(auto)]

mod laws;

pub use laws::{
    counts_for_good, last_is_greatest, leases_cover, listings_promise, listings_reach,
    pending_promises, times_keep_floors, times_rise,
};
