//! One session: its commands, its open transaction and its time.
//!
//! The contract is exact. A session is seen as a mover of `txn_types`. Each call makes of it what the entries that the
//! caller records make of a mover, and tells what comes next in the program of the command. Out of memory ends the
//! command, and comes only where a mover may be told it.
#![tactic(auto)]

mod command_in_flight;
mod open_txn;
mod session_core;
mod session_state;
mod starting;
mod turn;
mod work;

pub use session_core::SessionCore;
pub use turn::Turn;
