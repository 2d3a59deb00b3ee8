//! The laws of every run, over the definitions alone.
//!
//! Each function takes nothing and does nothing; its contract is a law over every cluster and every history that is a
//! run; where it speaks of what reads show, or of related writes at several tablets, places with equal first parts name one
//! tablet in it. The promises: reads are right, fresh where the skew held, told their final time, and steady; a transaction
//! commits above its writes and its read time; related commits have different times, and related writers do not overlap. What
//! is told is an answer of the command, or a refusal, which has its cause, is told where its condition holds, and leaves what
//! it may; Ended and Committed are told as the record was found, and stay so; and what a last pass was told as left is left. The
//! facts under them: times and leases, what Pending promises, commit times, what a listing read promises, what is told of
//! transactions, where the writes of a committed one are, and the order of related writes.
#![tactic(auto)]

mod facts;
mod promises;

pub use facts::{
    commit_times, committed_writes, listing_promise, pending_promise, related_writes,
    session_order, times_and_leases, told_fates,
};
pub use promises::{
    reads_are_final, reads_are_fresh, reads_are_right, reads_are_steady, runs_keep_promises,
    writers_are_apart,
};
