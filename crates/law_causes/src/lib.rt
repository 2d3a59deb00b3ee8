//! Why commands are refused.
//!
//! A law over every run: each refusal that a session or an applier is told has its cause in the history, as `Cause` says. A
//! call does nothing.
#![tactic(auto)]

mod laws;

pub use laws::each_refusal_has_its_cause;
