//! The three schedules: a plan is run to its end in line order, as its script says, or as drawn.
//!
//! The contract says that the history is a run of the cluster which does all of the plan, and that its moves and readings are
//! those which the plan and the schedule name. So nothing is left open but want of memory and what the stores do. If memory
//! runs out, the history so far is a run that follows the plan. Each store holds what its actor's entries logged.
#![tactic(auto)]

mod drawn;
mod go;
mod passes;
mod running;
mod serial;
mod sessions;
mod simulation;

pub use running::simulate;
