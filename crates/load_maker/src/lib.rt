//! Made scripts: the cluster and the commands of a run under load, by a number.
//!
//! The contract is exact: `make` gives the plan of `made`, and only out of memory may come in its place.
#![tactic(auto)]

mod draws;
mod making;
mod plan;

pub use making::make;
