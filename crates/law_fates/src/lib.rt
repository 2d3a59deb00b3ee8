//! What becomes of a transaction in every run, and what is told of it.
//!
//! The laws of commits and fates, for every history that is a run: a transaction commits at one time at most, what is
//! told Committed is committed at that time, what is told Aborted never commits, and what is told Pending to a question
//! commits above the time asked about, if it does. A call does nothing.
#![tactic(auto)]

mod laws;

pub use laws::{
    commits_once, pending_commits_above, told_aborted_never_commits, told_committed_is_committed,
};
