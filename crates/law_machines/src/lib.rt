//! The machines of a run, each by its own entries.
//!
//! A tablet or a status tablet answers by its table over its own entries, and what stands in its log is what took effect
//! there, in the order of taking effect: what was served without a fault, and at a restart the piece that it kept. The
//! laws say so for every history that is a run. A call does nothing.
#![tactic(auto)]

mod laws;

pub use laws::{each_by_its_table, log_is_what_took_effect};
