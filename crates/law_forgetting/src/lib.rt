//! What a status tablet has forgotten in every run.
//!
//! The law of forgotten transactions, for every history that is a run: where a committed transaction was told Absent after
//! it was begun, all tablets that its commit named have applied it. A call does nothing.
#![tactic(auto)]

mod laws;

pub use laws::told_absent_is_forgotten;
