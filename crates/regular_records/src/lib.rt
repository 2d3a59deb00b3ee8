//! The versions of a tablet: what was committed, path by path and time by time.
//!
//! The trait `Versions` is what a tablet stands on. Contracts see its versions as a list, in whatever order, and each
//! call answers what the definitions of values, of related writes and of what a read meets make of that list.
//! `MapVersions` keeps them in an ordered map, by path and then newest first.
#![tactic(auto)]

mod adding;
mod decided;
pub mod laws;
mod map_versions;
mod merged;
mod newest_beneath;
mod prefix_words;
mod related;
mod scan;
mod store;
mod version_key;
mod version_value;
mod versions;
mod word;

pub use decided::Decided;
pub use map_versions::MapVersions;
pub use merged::{get_merged, scan_merged};
pub use versions::Versions;
