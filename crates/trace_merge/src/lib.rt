//! Whether the clocks of a run agreed within a skew; and the parts of a history, put into one by their stamps.
//!
//! The contract on clocks speaks of each finished read, its origin and its own reading, as `txn_types` defines them. The answer is
//! found in two walks over the recorded history, with a table of fixed size for what is known of each session. The first
//! walk finds the first read that fails, and the second the first reading that shows it. Parts are put into one in one pass, if
//! their stamps are the numbers below their count, and else by sorting.
#![tactic(auto)]

mod events;
mod failed_read;
mod merging;
mod origin;
mod session_clocks;
mod skew;
mod walk;

pub use merging::merge;
pub use skew::clocks_agree;
