//! What each finished read shows, in every run.
//!
//! The law of right reads, for every history that is a run and whose lines name one tablet for each first part of a path: a
//! finished read shows what the fold of all commits up to its final time leaves on the paths asked, with the writes that
//! its transaction had accepted on top. A call does nothing.
#![tactic(auto)]

mod laws;

pub use laws::{commits_are_above_reads, reads_are_right};
