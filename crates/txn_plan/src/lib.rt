//! A step of a transaction, or a single write, as a plan that asks and hears.
//!
//! The contract is exact. What a plan still does is a program of `txn_types`: at its start the one that the tables give
//! for its step. `next` tells what comes next in it, and `hear` goes on in it with a reply. Nothing after the reply to a
//! Begin, a Write, a Single, a Commit or an Abort takes memory.
#![tactic(auto)]

pub mod laws;
mod stage;
mod txn_plan;
mod txn_turn;

pub use txn_plan::TxnPlan;
pub use txn_turn::TxnTurn;
pub use txn_types::TxnStep;
