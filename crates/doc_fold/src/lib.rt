//! The slow answer: what a read at a time has to be told, computed plainly from all that was committed.
//!
//! The contract is the definition: `fold_get` answers the value, and `fold_scan` the rows, that the writes of all that is
//! committed not later than a time leave. Other answers are compared with it; it sorts and copies all that it is given.
#![tactic(auto)]

mod fold;
mod order;
mod scan;

pub use fold::{fold_get, fold_scan};
