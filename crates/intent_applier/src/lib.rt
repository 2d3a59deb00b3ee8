//! One pass over the provisional records of a tablet, as a plan that asks and hears.
//!
//! The contract is exact. What a pass still does is a program of `txn_types`: at its start the one that the tables give
//! for its tablet. `next` tells what comes next in it, and `hear` goes on in it with a reply.
#![tactic(auto)]

pub mod laws;
mod pass;
mod pass_turn;
mod stage;

pub use pass::Pass;
pub use pass_turn::PassTurn;
