//! Committed snapshot transactions with related writes do not overlap, in every run.
//!
//! The law of apartness, for every history that is a run and whose lines name one tablet for each first part of a path:
//! of two committed snapshot transactions with related writes, one committed not later than the other read. A call does
//! nothing.
#![tactic(auto)]

mod laws;

pub use laws::related_transactions_are_apart;
