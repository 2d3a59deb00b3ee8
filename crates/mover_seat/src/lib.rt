//! A session or an applier with its lines: one entry of its own after another.
//!
//! The contract speaks of the mover's own entries alone. A seat stands for a mover, for the lines that it was given, and for
//! the entries that it made so far. It gives the next entry of its chain, takes the reading that stands in it and the replies
//! to what it asked, and knows whether it has an event left. Whoever holds it keeps room for an entry before asking for one,
//! so no effect is without its entry. An entry that asks has the request, and nobody else has it.
#![tactic(auto)]

mod applier_seat;
mod laws;
mod lines;
mod made;
mod moved;
mod pass_work;
mod session_seat;
mod session_work;
mod stage;
mod step;

pub use applier_seat::ApplierSeat;
pub use laws::events_are_own;
pub use moved::Moved;
pub use session_seat::SessionSeat;
pub use step::Step;
