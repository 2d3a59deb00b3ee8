//! What a status tablet keeps of a transaction.
ghost use Rattle.std.specs.Prelude.{◌≡◌};
ghost use Rattle.status_tablet.specs.Keeps.{told, without};

use crate::commit::Commit;
use txn_types::TxnId;

/// What a status tablet keeps of a transaction.
#[derive(Debug, Drop)]
pub enum TxnRecord {
    Pending { priority: u32 },
    Committed(Commit),
    /// A transaction of a higher priority aborted it.
    Aborted { by: TxnId },
}

impl TxnRecord {
    /// The owner is told of the commit, where there is one. It takes no memory.
    pub fn tell(&mut self)
        ensures { self.new ≡ told self.old }
    {
        if let TxnRecord::Committed(commit) = self {
            commit.sure = true;
        }
    }

    /// The tablet has applied the commit, where there is one. It takes no memory.
    pub fn note(&mut self, tablet: u32)
        ensures { self.new ≡ without tablet self.old }
    {
        if let TxnRecord::Committed(commit) = self {
            commit.waits.note(tablet);
        }
    }
}
