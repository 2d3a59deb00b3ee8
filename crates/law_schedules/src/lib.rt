//! Histories made by a schedule, move by move.
//!
//! A schedule is defined over the finished history: it names each mover as often as the history has entries of it. Whoever
//! makes a history knows only the entries so far, and which movers have an event left. The laws tie the two: a run that was
//! made by the schedule, each move chosen by what was known at its time, does all of its plan, and its moves are those that
//! the schedule names. A call does nothing.
#![tactic(auto)]

mod laws;

pub use laws::{courses_are_scheduled, courses_do_all};
