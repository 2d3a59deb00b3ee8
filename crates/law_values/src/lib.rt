//! What lists of writes leave.
//!
//! The laws of values, about definitions alone: what a tablet's versions up to a time leave at a path is what the fold of
//! committed transactions leaves there, where they are the same writes on this path; and a read over several tablets shows
//! what one list of all their writes leaves, with the transaction's own writes on top. A call does nothing.
#![tactic(auto)]

mod laws;

pub use laws::{reads_show_the_writes, versions_leave_the_fold};
