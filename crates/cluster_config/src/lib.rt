//! The head of a script: the text that says which cluster there is.
//!
//! A head is TOML with nine keys, each of which may be left out. The contract is exact: `read_head` gives the
//! configuration of `head_of`, or its refusal, and only out of memory may come in place of these. `write_head`
//! writes a text that is read as the same configuration, for each configuration that was read.
#![tactic(auto)]

mod head_refusal;
mod keys;
mod laws;
mod reading;
mod values;
mod writing;

pub use head_refusal::HeadRefusal;
pub use laws::what_is_written_is_read;
pub use reading::read_head;
pub use writing::write_head;
