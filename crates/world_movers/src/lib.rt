//! All sessions and appliers of a cluster over one history, without its machines.
//!
//! The contract speaks of the history that the caller records. The movers stand for the lines that the sessions were given
//! and for the entries so far. Any mover gives its next entry, takes the reply to what it asked, and knows whether it has an
//! event left; and the place of the entry that asked is told with the machine that was asked. A call touches its mover
//! alone. No memory is taken but when the movers are opened.
#![tactic(auto)]

mod applier_slot;
mod appliers;
mod asking;
mod movers;
mod session_slot;
mod sessions;

pub use asking::Asking;
pub use mover_seat::{Moved, Step};
pub use movers::Movers;
