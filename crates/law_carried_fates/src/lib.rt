//! What a request carries of others was told before, in every run.
//!
//! The laws of what movers heard, for every history that is a run: the fates of a write were told before, what is applied
//! was committed before at that time, what is cleaned was told Aborted or Absent, and what is noted was applied. A call
//! does nothing.
#![tactic(auto)]

mod laws;

pub use laws::{
    applies_are_of_commits, cleans_are_of_ended, fates_were_told, notes_follow_applies,
};
