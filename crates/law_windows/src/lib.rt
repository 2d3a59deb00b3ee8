//! The window of each finished read, in every run.
//!
//! The laws say that a read inside a transaction has the window of its begin, and that, where clocks agree within the
//! skew, what was known before the read lies in it: its commit, and its writes. A call does nothing.
#![tactic(auto)]

mod laws;

pub use laws::{known_commits_are_in_windows, known_writes_are_in_windows, windows_are_of_begins};
