//! Commit times against read times, in every run.
//!
//! The law says that each snapshot transaction commits above its read time. A call does nothing.
#![tactic(auto)]

mod laws;

pub use laws::commits_are_above_read_times;
