//! What a session refuses of its own.
//!
//! A law over every run: the session's own refusals are told where the line asks for what is not there, or out of memory is;
//! and no such refusal is told once something was asked. A call does nothing.
#![tactic(auto)]

mod laws;

pub use laws::session_refuses_at_once;
