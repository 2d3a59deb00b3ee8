//! The words of a command line: which job they ask for.
//!
//! `clap` takes the words apart, and this crate reads the texts that it found. The contract is exact: `read_words`
//! gives the job of `job_of`, or `Usage` where there is none, and only out of memory may come in place of these.
#![tactic(auto)]

mod command;
mod job;
mod matched;
mod mode;
mod reading;
mod words_refusal;

pub use job::Job;
pub use mode::Mode;
pub use reading::read_words;
pub use words_refusal::WordsRefusal;

#[cfg(test)]
mod tests;
