//! A run by its parts.
//!
//! A history is a run exactly where the cluster is within its limits, each actor's own entries are allowed over its own
//! earlier ones, and the messages match: what is served was asked, and what is heard was answered. Whoever keeps the entries
//! of each actor apart, a world or threads, shows so that the whole is a run, or that a run stays one with each entry more. A call
//! does nothing.
#![tactic(auto)]

mod laws;

pub use laws::{one_more_is_a_run, parts_make_a_run, runs_have_parts};
