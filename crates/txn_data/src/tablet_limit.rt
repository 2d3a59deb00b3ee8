//! The local limit that a read fixed at a tablet.
use docdb_base::{Memory, TryCopy};
use hybrid_time::HybridTime;
use std::alloc::Global;

/// The local limit that a read fixed at a tablet.
#[derive(Clone, Copy, Debug, PartialEq, Eq)]
pub struct TabletLimit {
    pub tablet: u32,
    pub limit: HybridTime,
}

impl TryCopy for TabletLimit {
    fn try_copy(&self, _alloc: Global) -> Result<TabletLimit, Memory> {
        Ok(*self)
    }
}
