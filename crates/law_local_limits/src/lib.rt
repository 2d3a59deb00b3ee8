//! The local limits of reads, in every run.
//!
//! The laws say that a limit which a read gives to a tablet was fixed by that tablet before, that a tablet which listed
//! for a read adds only above its time and its limit, and that the limits of a finished read were fixed since its origin.
//! A call does nothing.
#![tactic(auto)]

mod laws;

pub use laws::{
    given_limits_were_fixed, limits_of_reads_were_fixed, listings_promise_their_limits,
};
