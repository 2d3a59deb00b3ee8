//! The accepted writes of an open transaction: their tablets in the order of first use, and what they show over the rows
//! that a read found.
//!
//! The contract is exact. The writes are a list, to which one is put at the end without memory, once there is room for
//! it. What a read shows is the rows that it found, where each path on which one of these writes has the last word goes
//! by them.
#![tactic(auto)]

mod accepted;
mod merging;
mod overlay;
mod own_writes;

pub use own_writes::OwnWrites;
