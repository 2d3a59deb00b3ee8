//! Runs that have what the laws over all runs speak of, and entries that no run has.
//!
//! The laws would say nothing if no history were a run, or none in which reads finish and transactions commit. Here are
//! runs of small clusters that meet the premises of the promises, some of them written entry by entry and some made from a
//! script. Here are runs that miss one premise, in which what is promised fails. And here are entries that no run has: each
//! comes after a run, and is wrong in one thing. A call does nothing.
#![tactic(auto)]

mod laws;

pub use laws::{
    a_commit_is_told_ended, a_kept_commit_stands, a_plan_is_done, a_read_inside_finishes,
    a_read_over_two_tablets_restarts, a_run_shows_all, a_transaction_is_left,
    an_abort_is_told_committed, freshness_needs_a_related_commit, freshness_needs_a_told_commit,
    freshness_needs_the_skew, only_related_writes_differ, only_transactions_are_apart,
    promises_need_one_tablet, two_writers_commit, wrong_entries_are_refused,
    wrong_tells_are_refused,
};
