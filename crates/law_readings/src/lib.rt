//! Where the microseconds of a machine's times come from in every run.
//!
//! The law says that they are 0, a reading that the machine recorded, or those of a floor that it was asked for. That all
//! times come from readings is a law of a crate above. A call does nothing.
#![tactic(auto)]

mod laws;

pub use laws::times_come_from;
