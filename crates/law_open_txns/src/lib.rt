//! What the requests of an open transaction are answered in every run, and what its session knows of it.
//!
//! The laws of writes and ends, for every history that is a run: a write is accepted at the time that it took, or its append
//! failed, or it is refused with nothing to log; a commit or an abort is answered so that it closes the transaction, or its
//! append failed, or it is refused with nothing to log. Beside them stands, for proofs of callers, what a session knows of
//! its open transaction, and which entries leave that as it is. A call does nothing.
#![tactic(auto)]

mod laws;

pub use laws::{ends_are_answered, writes_are_answered};
