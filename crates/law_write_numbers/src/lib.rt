//! The accepted writes of a transaction in every run, and their numbers.
//!
//! The laws of accepted writes, for every history that is a run: of two accepted writes of a transaction the later one has
//! the greater number, whatever was refused, failed or told out of memory between them; and between two commands what a
//! session keeps of its open transaction as accepted is what was accepted, in this order. A call does nothing.
#![tactic(auto)]

mod laws;

pub use laws::{numbers_rise, open_keeps_its_writes};
