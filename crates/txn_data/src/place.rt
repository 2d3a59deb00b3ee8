//! A path and the tablet that it belongs to.
use doc_path::Path;
use docdb_base::{Memory, TryCopy};
use std::alloc::Global;

/// A path and the tablet that it belongs to.
#[derive(Debug, Drop)]
pub struct Place {
    pub tablet: u32,
    pub path: Path,
}

impl TryCopy for Place {
    fn try_copy(&self, alloc: Global) -> Result<Place, Memory> {
        Ok(Place {
            tablet: self.tablet,
            path: self.path.try_copy(alloc)?,
        })
    }
}
