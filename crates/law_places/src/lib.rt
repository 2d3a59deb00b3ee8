//! Where the lines of a plan send what they write, in every run.
//!
//! The law of places, for every history that is a run: a write goes to the tablet of a place that a line named before,
//! with its path. A call does nothing.
#![tactic(auto)]

mod laws;

pub use laws::writes_are_placed;
