//! What is told was given by lines.
//!
//! A law over every run: each path that is told in rows, or with a read that may not restart, is the path of a place of a
//! line that was started, and each value that is told is one that a started line puts. So what a report prints of paths and
//! values spells what the lines spelled. A call does nothing.
#![tactic(auto)]

mod laws;

pub use laws::what_is_told_was_given;
