//! Where a request meets the row of a refusal.
//!
//! A law over every run: a tablet or a status tablet that serves such a request refuses it, with just that refusal. It is the other
//! way of the law on what refusals say. A fault of the log has no row, and out of memory has none. A call does nothing.
#![tactic(auto)]

mod laws;

pub use laws::rows_are_refused;
