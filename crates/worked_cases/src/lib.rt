//! Worked cases of the definitions, by computation.
//!
//! Each case is a small script, and what its commands are told, worked out by hand; or a schedule, with the moves, the rows,
//! the times and the readings that come of it; or what a mover does next, and what is left at the end. The checker computes
//! them over the tables of `txn_types`. The simulation that makes the histories is a definition, so that others can cite them.
#![tactic(auto)]
