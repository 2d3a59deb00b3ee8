//! Runs in which commands are refused, and refusals that no run has.
//!
//! Runs of small clusters, some of them made from a script, in which commands are told each refusal but ClockFull and out of
//! memory. What a tablet answers once its counter has ended is shown by its table alone. Here are also refusals and tells that
//! no run has: each comes after a run, and has another cause than stands there. A call does nothing.
#![tactic(auto)]

mod laws;

pub use laws::{
    a_closing_abort_is_refused, a_counter_ends, a_kept_write_closes, a_load_fails,
    a_lost_write_closes, a_session_refuses_by_itself, a_write_comes_between, clocks_refuse,
    faults_refuse, reads_are_stopped, writers_are_refused, wrong_refusals_are_refused,
};
