//! The words of the lines by which one actor is asked and answers.
//!
//! `Words` goes over the words of a line, and `read_request`, `read_reply` and `read_command` read what they spell. `Line`
//! puts the words of requests, replies and what is told behind one another. What is not of the form and out of memory are
//! two refusals.
#![tactic(auto)]

mod commands;
mod fates;
mod line;
mod lists;
mod not_read;
mod numbers;
mod replies;
mod requests;
mod terms;
mod words;
mod write_lists;
mod write_reply;
mod write_request;
mod write_told;

pub use commands::read_command;
pub use line::Line;
pub use not_read::NotRead;
pub use replies::read_reply;
pub use requests::read_request;
pub use terms::read_actor;
pub use words::Words;
