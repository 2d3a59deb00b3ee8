//! The provisional records of a tablet: by transaction, by path, and back from a transaction to its records.
//!
//! Contracts see `Intents` by the lists of provisional writes for which it stands (`Holds` of `specs/Holds.antt`): its
//! maps have the metadata of the first write of each transaction, and all the rest of each write. For every such list
//! each call answers what the definitions of a tablet make of that list.
#![tactic(auto)]

mod asked;
mod bounds;
mod intents;
mod path_range;
mod primary_record;
mod record_key;
mod related;
mod search;

pub use intents::Intents;
