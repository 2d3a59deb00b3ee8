//! Which tablet owns which hashes.
//!
//! The 65,536 hashes are parted among up to 64 tablets. The contract is exact: `tablet_of` and `range_of`
//! answer what `specs/Partition.antt` says, and `parts_all_hashes` says that the ranges hold each hash in
//! exactly one. Nothing here takes memory.
#![tactic(auto)]

mod laws;
mod partition;

pub use laws::parts_all_hashes;
pub use partition::{range_of, tablet_of};

#[cfg(test)]
mod tests;
