//! Committed transactions with related writes in every run.
//!
//! The laws of related commits, for every history that is a run and whose lines name one tablet for each first part of a
//! path: two committed transactions with related writes never have one commit time, single writes among them; and of two
//! committed snapshot transactions a write of the one read not below the commit time of the other. A call does nothing.
#![tactic(auto)]

mod laws;

pub use laws::{related_commits_differ, related_commits_read_above};
