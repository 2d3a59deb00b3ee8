//! Where the microseconds of all times of a run come from.
//!
//! The law says that they are 0, or a reading that some entry recorded before: times of machines, those that sessions
//! ask with, those that machines reply, and those that are told. A call does nothing.
#![tactic(auto)]

mod laws;

pub use laws::times_are_grounded;
