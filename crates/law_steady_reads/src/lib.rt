//! What each finished read is told of its time, in every run.
//!
//! The laws of final times, for every history that is a run: a finished read is told its final time and how often it met
//! something, and it is not earlier than what its own session was told before. A call does nothing.
#![tactic(auto)]

mod laws;

pub use laws::{reads_are_final, reads_are_steady};
