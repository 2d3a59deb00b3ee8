//! What writes carry of others in every run.
//!
//! The law of resolved fates, for every history that is a run: each fate that a write carries was told when its transaction
//! had been begun, and none of them is Pending. A call does nothing.
#![tactic(auto)]

mod laws;

pub use laws::fates_are_of_begun;
