//! A version that a read met in its window.
use doc_path::Path;
use docdb_base::{Memory, TryCopy};
use hybrid_time::HybridTime;
use std::alloc::Global;

/// A version that a read met in its window.
#[derive(Debug, Drop)]
pub struct MetAt {
    /// The greatest commit time that was met.
    pub at: HybridTime,
    /// The least path that was met with it.
    pub path: Path,
}

impl TryCopy for MetAt {
    fn try_copy(&self, alloc: Global) -> Result<MetAt, Memory> {
        Ok(MetAt {
            at: self.at,
            path: self.path.try_copy(alloc)?,
        })
    }
}
