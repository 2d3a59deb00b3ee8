//! Which intents conflict, and what a write is answered that meets other transactions.
//!
//! The contract is exact. Two intents conflict by the rule of `specs/Conflict.antt`, and those of two snapshot writes
//! conflict exactly where their paths are related, which is proved in `laws`. `decide` is the order of
//! `specs/Decide.antt`: a conflict, else an overlap, else nothing.
#![tactic(auto)]

mod first_fates;
mod intent_at;
mod kind;
pub mod laws;
mod write;
mod write_decision;

pub use first_fates::{FirstFates, commit_time};
pub use intent_at::IntentAt;
pub use kind::{Kind, conflicts};
pub use write::{decide, intents_of};
pub use write_decision::WriteDecision;
