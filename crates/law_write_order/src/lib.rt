//! The order of related writes in every run.
//!
//! The law of order, for every history that is a run: of two related writes of different transactions at a tablet, both
//! committed in the end, the earlier one is committed before the later one, and not above the time that the later one
//! read at. A call does nothing.
#![tactic(auto)]

mod laws;

pub use laws::related_writes_are_in_order;
