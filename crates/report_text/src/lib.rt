//! The report of a history, as plain lines or as lines of JSON.
//!
//! The contract is exact: `report` gives the text of `specs/Text.antt`, byte by byte, or answers out of memory. The text
//! is made of the history and the cluster's numbers alone. It is whole before its first byte leaves.
#![tactic(auto)]

mod answer;
mod counts;
mod laws;
mod line;
mod names;
mod refused;
mod reporting;
mod rows;
mod seen;
mod session_lines;
mod told_line;
mod total;
mod word;

pub use laws::the_total_says_whether_clocks_agreed;
pub use reporting::report;

#[cfg(test)]
mod tests;
