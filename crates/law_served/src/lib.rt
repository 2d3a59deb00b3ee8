//! What was served for each told command.
//!
//! A law over every run: the requests that were served for a told command are just those that its program asked, one after
//! another, and what it is told is what the program came to with their replies; or it was told out of memory, where none of
//! them settled it. `proofs/` has the form in which later crates read a program: what hearing a reply means for what is told.
//! A call does nothing.
#![tactic(auto)]

mod laws;

pub use laws::told_commands_ran;
