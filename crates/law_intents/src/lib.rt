//! What a tablet holds of a transaction in every run.
//!
//! The laws of provisional writes, for every history that is a run. So far: once a tablet has answered that a transaction
//! is applied there, it holds no provisional write of it any more, over restarts and kept appends too. A call does
//! nothing.
#![tactic(auto)]

mod laws;

pub use laws::applied_stays_applied;
