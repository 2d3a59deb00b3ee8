//! What the refusals of machines say.
//!
//! Laws over every run. Where a tablet or a status tablet serves a refusal, its own entries up to then say why, as `Explains`
//! has it: who conflicts, which commit time is too late, which lease holds, which counter has ended, which reading is out of
//! range, that an append or a load failed, or since when it is down; none is out of memory. A fault of the log is answered exactly
//! where an append or a load failed, and Down only after such an answer with no restart between. A call does nothing.
#![tactic(auto)]

mod laws;

pub use laws::{down_follows_a_fault, faults_are_told, refusals_are_explained};
