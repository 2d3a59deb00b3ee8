//! The actors of a cluster over a history that the caller keeps: its movers and its machines.
//!
//! The contract speaks of that history. Any mover is moved by one entry, and what the actors stand for after it is known: the
//! history is still a run of the cluster that follows the lines given, and each log holds what its actor's entries logged. No
//! promise of a run is needed here; `world_core` adds them.
#![tactic(auto)]

mod actors;
mod step_refusal;

pub use actors::Actors;
pub use step_refusal::StepRefusal;
pub use world_movers::Moved;
