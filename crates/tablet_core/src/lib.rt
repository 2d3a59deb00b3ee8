//! A tablet: what it keeps, and what it answers.
//!
//! Each request of its table is a call. The contract of each is that of `Machine`: it answers what the table allows over
//! the tablet's own entries, and stands for the entries with one more. `specs/Stands.antt` says when it stands for entries.
//! `decisions.rt` has a small function for each request, which decides and changes nothing; what is kept is that of
//! `tablet_records`, and log, clock and restarts are those of `leased_log`. By the laws the times of entries that count rise,
//! over restarts too, and the last lease in the log covers them.
#![tactic(auto)]

mod decisions;
mod laws;
mod machine;
mod tablet_core;
mod undecided;

pub use laws::{times_are_leased, times_rise};
pub use tablet_core::TabletCore;
