//! The versions of a tablet in every run.
//!
//! The laws of versions, for every history that is a run: each version of a tablet was made by a write of what is
//! committed, with its path, number and operation, at its commit time; each such write is there as this very version, or
//! still provisional; and no version gives way to another. A call does nothing.
#![tactic(auto)]

mod laws;

pub use laws::{
    commits_are_there, intents_are_writes, versions_are_commits, versions_are_unique, versions_stay,
};
