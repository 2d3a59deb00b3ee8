//! What the sessions are to do.
use crate::lists::{GoLines, Numbers, SessionPlans};
use docdb_base::{Memory, TryCopy};
use std::alloc::Global;

/// What the sessions are to do.
#[derive(Debug, Drop)]
pub struct Commands {
    /// By rising number.
    pub sessions: SessionPlans,
    /// The session number of each command line, in line order.
    pub order: Numbers,
    /// The lines that move a mover, in their order.
    pub go: GoLines,
}

impl TryCopy for Commands {
    fn try_copy(&self, alloc: Global) -> Result<Commands, Memory> {
        Ok(Commands {
            sessions: self.sessions.try_copy(alloc)?,
            order: self.order.try_copy(alloc)?,
            go: self.go.try_copy(alloc)?,
        })
    }
}
