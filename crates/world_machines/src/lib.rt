//! The tablets and status tablets of a world, over any log store.
//!
//! The contract speaks of the history alone. Each machine stands for its own entries of it, over what its store held when it
//! was opened. A machine that serves a request gives the reply, and the entry that its table allows next. The stores go back
//! in their order, with those that no actor uses.
#![tactic(auto)]

mod answered;
mod closing;
mod entries;
mod machines;
mod opening;

pub use answered::Answered;
pub use machines::Machines;
