//! What sessions are told of commits, in every run.
//!
//! The laws of told commits, for every history that is a run: where a session is told Committed of a transaction, single
//! writes among them, a commit of it is in the history, at the time told, and none is at another time. A call does nothing.
#![tactic(auto)]

mod laws;

pub use laws::{commit_times_are_told, told_commits_are_there};
