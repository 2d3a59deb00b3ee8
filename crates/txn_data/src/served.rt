//! What a machine made of a request.
use crate::append::Append;
use crate::reply::Reply;
use docdb_base::{Memory, TryCopy};
use hybrid_time::HybridTime;
use std::alloc::Global;

/// What a machine made of a request.
#[derive(Debug, Drop)]
pub struct Served {
    pub reply: Reply,
    /// An equal reply, for the history.
    pub copy: Reply,
    /// The time that the action took, where it took one.
    pub time: Option<HybridTime>,
    /// What became of the append.
    pub append: Append,
}

impl TryCopy for Served {
    fn try_copy(&self, alloc: Global) -> Result<Served, Memory> {
        Ok(Served {
            reply: self.reply.try_copy(alloc)?,
            copy: self.copy.try_copy(alloc)?,
            time: self.time,
            append: self.append,
        })
    }
}
