//! A status tablet: what it keeps of transactions, and what it answers.
//!
//! Each request of its table is a call. The contract of each is that of `Machine`: it answers what the table allows over
//! the status tablet's own entries, and stands for the entries with one more. `specs/Stands.antt` says when it stands for
//! entries, `specs/Keeps.antt` what it keeps of a transaction. `decisions.rt` has a small function for each request of the table,
//! which decides and changes nothing; log, clock and restarts are those of `leased_log`. The laws say of any entries that it
//! stands for how their times rise, and that its last lease covers them.
#![tactic(auto)]

mod commit;
mod decisions;
mod laws;
mod machine;
mod mark;
mod status_decision;
mod status_tablet;
mod txn_record;
mod txn_records;
mod waits;

pub use laws::{times_are_leased, times_rise};
pub use status_tablet::StatusTablet;
