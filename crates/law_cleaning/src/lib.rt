//! What passes clean in every run.
//!
//! The law of passes, for every history that is a run: what is cleaned was told to be ended when it had been begun. A
//! call does nothing.
#![tactic(auto)]

mod laws;

pub use laws::cleans_are_of_begun;
