//! What a refusal leaves, and where it is told.
//!
//! Laws over every run. What the session keeps once a refusal is told, and what the logs hold of the command, is as `Leaves`
//! says; a transaction that was closed so never commits. And a command that meets the condition of a refusal, with no earlier
//! one in its place, is told it, or out of memory, as `Decides` says. A call does nothing.
#![tactic(auto)]

mod laws;

pub use laws::{conditions_decide, refusals_leave};
