//! What a mover does next, and whether it has an event left.
//!
//! The definition `next_event` reads it off a history and the lines given so far; worlds, schedules and threads speak of
//! movers by it. Two laws over every run stand beside it: in a run that follows a plan places agree, and a mover has an
//! event left exactly where the schedules count one. A call does nothing.
#![tactic(auto)]

mod laws;

pub use laws::{left_is_counted, plans_agree};
