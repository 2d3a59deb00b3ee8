//! Reads are fresh, in every run.
//!
//! The law of fresh reads, for every history that is a run, whose lines name one tablet for each first part of a path, and
//! in which the clocks agree within the skew before the read: each related commit that was told before the origin of a
//! finished read is not later than the read. A call does nothing.
#![tactic(auto)]

mod laws;

pub use laws::reads_are_fresh;
