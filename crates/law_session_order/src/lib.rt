//! What a session asks of its transactions in every run, and that a commit covers all its writes.
//!
//! The laws of a session's own order, for every history that is a run: nothing is written before a Begin was answered;
//! after a commit or an abort that was to be logged nothing more is written; a commit covers all that was written before;
//! and so a transaction commits above all its writes. A call does nothing.
#![tactic(auto)]

mod laws;

pub use laws::{commits_above_writes, commits_cover, no_write_after_end, writes_are_begun};
