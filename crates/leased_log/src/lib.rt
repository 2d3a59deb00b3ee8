//! The log of a tablet or status tablet, with its clock, its lease and its restarts.
//!
//! A machine decides by its table what a request is answered, which time it takes and which record it logs (`Decision`).
//! A `LeasedLog` makes this ready, which may find no memory, and then does it, which takes none: the frames go to the store
//! in one append, a lease before the record that needs it, the clock moves, and a fault of the store leaves the actor
//! down. The contract says by `Stands` of `specs/Stands.antt` that log, clock and counts are those of the actor's entries,
//! each of which its table allows, and by `Done` of `specs/Decides.antt` that so is the entry which is made. `laws.rt` says
//! of all entries that a log stands for how their times rise, and that the last lease in the log covers them.
#![tactic(auto)]

mod action;
mod decision;
mod in_range;
mod laws;
mod leased_log;
mod replies;

pub use action::Action;
pub use decision::{Decision, refusal_of};
pub use laws::{the_same_log_stands, times_are_leased, times_rise};
pub use leased_log::LeasedLog;
pub use replies::{log_fault, out_of_memory, restarted};
