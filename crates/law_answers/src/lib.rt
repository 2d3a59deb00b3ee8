//! What commands are answered.
//!
//! A law over every run: what a session or an applier is told is a refusal, or an answer that its command may have. A
//! transaction that it names is the command's own. A call does nothing.
#![tactic(auto)]

mod answers;

pub use answers::each_command_has_its_answer;
