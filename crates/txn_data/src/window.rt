//! The window of a read: up to which commit time, and up to which provisional time, a newer version makes it restart.
use docdb_base::{Memory, TryCopy};
use hybrid_time::HybridTime;
use std::alloc::Global;

/// The window of a read: up to which commit time, and up to which provisional time, a newer version makes it restart.
#[derive(Clone, Copy, Debug, PartialEq, Eq)]
pub struct Window {
    /// The greatest commit time that may have been told before the read began.
    pub g: HybridTime,
    /// The local limit of the tablet.
    pub limit: HybridTime,
}

impl TryCopy for Window {
    fn try_copy(&self, _alloc: Global) -> Result<Window, Memory> {
        Ok(*self)
    }
}
