//! A row of a read: a path and its value, where it has one.
use crate::lists::Bytes;
use doc_path::Path;
use docdb_base::{Memory, TryCopy};
use std::alloc::Global;

/// A row of a read: a path and its value, where it has one.
#[derive(Debug, Drop)]
pub struct Row {
    pub path: Path,
    pub value: Option<Bytes>,
}

impl TryCopy for Row {
    fn try_copy(&self, alloc: Global) -> Result<Row, Memory> {
        Ok(Row {
            path: self.path.try_copy(alloc)?,
            value: self.value.try_copy(alloc)?,
        })
    }
}
