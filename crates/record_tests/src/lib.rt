//! Tests of the public calls on keys, records, conflicts, clocks and logs, in a crate of their own.
//!
//! A crate with tests is proved twice. So tests that need public calls alone stand here, above the crates that they call.
#![tactic(auto)]

#[cfg(test)]
mod actor_clocks;
#[cfg(test)]
mod conflicts;
#[cfg(test)]
mod document_keys;
#[cfg(test)]
mod folds;
#[cfg(test)]
mod intents;
#[cfg(test)]
mod log_records;
#[cfg(test)]
mod tablet_logs;
#[cfg(test)]
mod values;
#[cfg(test)]
mod versioned_keys;
#[cfg(test)]
mod versions;
