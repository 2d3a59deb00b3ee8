//! Entries in the order of their stamps are a run.
//!
//! A stage of `actor_table` tells, when it is closed, that the entries of all seats are one history in the order of their
//! stamps, in which each used message was made earlier, and was used once. Where each seat's own entries are allowed by its
//! actor's table, and each Serve, Restarted and Hear used the message that it answers, that history is a run: what is
//! served and heard is in flight. Whoever builds actors over the stage shows the two premises for each seat alone.
//!
//! `merge` of `trace_merge` puts parts of a history into one by their stamps. The parts of the seats of a closed stage may be
//! merged, and what comes out is that history.
//!
//! A call does nothing.
#![tactic(auto)]

mod laws;

pub use laws::{
    merged_parts_make_a_run, parts_are_the_history, parts_may_be_merged, seats_make_a_run,
    stamps_match,
};
