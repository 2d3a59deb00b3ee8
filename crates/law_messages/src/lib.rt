//! Messages in flight in every run, and how a proof speaks of all movers at once.
//!
//! The laws say that what a mover has in flight is what its program asks next. `proofs/` has the form in which later
//! crates show that each request is good when it is served: a program is safe alone, whatever the others do meanwhile,
//! and one lemma keeps all movers. A call does nothing.
#![tactic(auto)]

mod laws;

pub use laws::{answered_is_next, asked_is_next, idle_is_quiet};
