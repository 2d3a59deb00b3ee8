//! What each finished read did, in every run.
//!
//! The law of visits, for every history that is a run: a finished read visited each of its tablets at its final time, and
//! each with its window at a time not above that. Each visit lists, asks what became of each transaction listed, and collects
//! with the answers. A call does nothing.
#![tactic(auto)]

mod laws;

pub use laws::reads_visit_their_tablets;
