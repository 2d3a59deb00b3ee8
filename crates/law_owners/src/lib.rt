//! Whose a transaction is in every run, and where its record stands.
//!
//! The laws of ids and status tablets, for every history that is a run: each id is used once, each request about a
//! transaction is served by the transaction's own status tablet, and what is its own to ask its own session asks. So the
//! answer Pending is kept wherever a transaction is asked about. A call does nothing.
#![tactic(auto)]

mod laws;

pub use laws::{ids_are_used_once, pending_is_kept, requests_are_homed};
