//! A read, as a plan that asks and hears.
//!
//! The contract is exact. What a plan still does is a program of `txn_types`: at its start the one that the tables give
//! for the read. `next` tells what comes next in it, and `hear` goes on in it with a reply. Nothing after a refusal takes
//! memory.
#![tactic(auto)]

mod laws;
mod places;
mod read_plan;
mod read_turn;
mod rows;
mod stage;
mod tablet_rows;

pub use laws::reads_take_two_rounds;
pub use read_plan::ReadPlan;
pub use read_turn::ReadTurn;
pub use txn_types::{Limits, ReadEnd, ReadWhat};
