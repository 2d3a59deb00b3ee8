//! The commands of one session.
use crate::lists::CommandList;
use docdb_base::{Memory, TryCopy};
use std::alloc::Global;

/// The commands of one session.
#[derive(Debug, Drop)]
pub struct SessionPlan {
    pub session: u32,
    pub commands: CommandList,
}

impl TryCopy for SessionPlan {
    fn try_copy(&self, alloc: Global) -> Result<SessionPlan, Memory> {
        Ok(SessionPlan {
            session: self.session,
            commands: self.commands.try_copy(alloc)?,
        })
    }
}
