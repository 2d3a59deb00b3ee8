//! All actors of a cluster over one history: any mover is moved by one event.
//!
//! The contract speaks of the history that is recorded. Whatever moves are made, it is a run of the cluster, it follows the
//! lines that the sessions were given, and it keeps the promises of every run; and each log holds what its actor's entries
//! logged. What a mover does next is `next_event` of `mover_chain`.
#![tactic(auto)]

mod world;

pub use world::World;
pub use world_actors::{Moved, StepRefusal};
