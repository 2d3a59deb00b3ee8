//! The language of scripts: a head, which `cluster_config` reads, and a body of command lines.
//!
//! The contract is exact: `read_script` gives the cluster and the plan of `script_of`, or its refusal, and only out of
//! memory may come in place of these. What was read can be run, and each of its places and values has a spelling.
//! `write_script` writes a text that is read as the same cluster and plan, for each that was read and each that can be said.
//! `proofs/Scripts.antt` has cases of the definitions that the checker computes. `Said` puts commands together to a plan.
#![tactic(auto)]

mod body;
mod commands;
mod document;
mod fault;
mod in_string;
mod laws;
mod line;
mod lines;
mod marks;
mod no_term;
mod numbers;
mod operands;
mod part_kind;
mod parts;
mod paths;
mod pieces;
mod queues;
mod reading;
mod said;
mod script_refusal;
mod sessions;
mod speaking;
mod string_step;
mod strings;
mod terms;
mod verb;
mod verbs;
mod why;
mod within;
mod words;
mod writing;
mod written_words;

pub use document::Document;
pub use laws::{what_is_shown_is_read, what_is_written_is_read};
pub use line::Line;
pub use paths::place_for;
pub use reading::read_script;
pub use said::Said;
pub use script_refusal::ScriptRefusal;
pub use verb::Verb;
pub use why::Why;
pub use writing::write_script;
