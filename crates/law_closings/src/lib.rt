//! A transaction is closed once.
//!
//! A law over every run: once a commit or an abort of a transaction was answered so that it is closed, none is served again. A
//! call does nothing.
#![tactic(auto)]

mod closings;

pub use closings::closed_is_not_ended;
