//! Which time a tablet or status tablet may give.
//!
//! An `ActorClock` gives no time beyond the end of the last lease in the log: `serve` answers the next time, with the
//! end of the lease that has to be logged first where one is needed. The contract is exact, by `specs/ActorClock.antt`,
//! and is the clock of the actors' tables. The laws speak of any sequence of steps, of appends that failed and of
//! restarts: times rise over restarts too, and none that counts is beyond its lease. Nothing here takes memory.
#![tactic(auto)]

mod actor_clock;
mod clock_refusal;
mod laws;
mod step;

pub use actor_clock::ActorClock;
pub use clock_refusal::ClockRefusal;
pub use laws::{
    entries_move_the_clock, it_is_the_clock_of_the_tables, times_are_leased, times_rise,
};
pub use step::Step;
