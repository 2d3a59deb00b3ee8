//! Moves of a schedule, one after another: what they leave of other movers, and that each of them can be made.
//!
//! A schedule names who moves next. The laws say of every run that this mover then has an event left: the session that the
//! next line names, and each applier where a round of passes begins. The rest are lemmas on lists, for whoever moves movers in
//! a loop. A call does nothing.
#![tactic(auto)]

mod laws;

pub use laws::{last_passes_can_begin, lines_can_start, others_stay};
