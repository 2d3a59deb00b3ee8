//! Hybrid times and the rules of the clocks that give them.
//!
//! A hybrid time is one number, microseconds and a logical counter, whose order is the order of numbers.
//! The contract is exact: `next`, `at_least` and `limit` answer what `specs/Time.antt` says. Nothing here
//! takes memory.
#![tactic(auto)]

mod clock;
mod hybrid;
#[cfg(test)]
mod tests;
mod time_refusal;

pub use clock::{at_least, limit, next};
pub use hybrid::HybridTime;
pub use time_refusal::TimeRefusal;
