//! The contents of a tablet: its committed versions and its provisional records.
//!
//! `TabletRecords` stands for the provisional writes and the versions of the tablets' table (`Keeps` of `specs/Keeps.antt`),
//! over whatever keeps versions. `apply` takes in one record of the log, as a replay does. Each other call says what the
//! table decides by the contents, and changes nothing.
#![tactic(auto)]

mod collect;
mod considered;
mod decisions;
mod fates;
mod fitting_intents;
mod met;
mod tablet_records;

pub use fates::single_floor;
pub use tablet_records::TabletRecords;
