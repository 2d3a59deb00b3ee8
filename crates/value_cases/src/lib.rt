//! Worked cases of values and scans, as data: the versions, what is asked, and the answer, worked by hand. The tests of
//! each crate that answers such questions run all of them, so that all of these crates meet the same values.
#![tactic(auto)]

mod value_case;

pub use value_case::{VALUE_CASES, ValueCase};
