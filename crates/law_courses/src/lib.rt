//! What each told command asked and heard, in every run.
//!
//! The law of the courses of commands, for every history that is a run: each command that is told came about by its
//! program, whose requests were answered by entries one after another since its start, where out of memory may have been
//! heard in place of an answer; or out of memory is told. Of a restart only the answer is said. A call does nothing.
#![tactic(auto)]

mod laws;

pub use laws::told_commands_came_about;
