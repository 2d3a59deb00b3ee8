//! What is left at the end.
//!
//! Laws over every run: once no session is at work any more, a pass over a tablet that is told how many transactions it left has
//! left just these; each of them is pending, and nothing else of the tablet is provisional. So it is of each tablet where all of
//! a plan is done. A call does nothing.
#![tactic(auto)]

mod left;

pub use left::{last_passes_settle, passes_settle, plans_settle};
