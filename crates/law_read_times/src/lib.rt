//! What sessions are told of read times in every run.
//!
//! The laws of read times, for every history that is a run: values are told not below the read time of the open
//! transaction, and each write reads at a time at which its session had the transaction open. A call does nothing.
#![tactic(auto)]

mod laws;

pub use laws::{reads_are_up, writes_read_as_open};
