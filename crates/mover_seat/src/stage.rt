//! Where a mover stands between two entries of its own.
ghost use Rattle.std.specs.Prelude.{◌≡◌, true};
ghost use Rattle.session_core.specs.Core.{StandsAfter};
ghost use Rattle.session_core.specs.declared.session_core.SessionCore.{SessionCore};
ghost use Rattle.mover_seat.specs.Stage.{does_fit, stage_after, asked_of};

use docdb_base::Memory;
use session_core::Turn;
use txn_types::{Actor, Reply, Request, Told, ToldRefusal};

/// Where a mover stands between two entries of its own.
#[derive(Debug, Drop)]
pub(crate) enum Stage {
    /// No command is under way.
    Between,
    /// The command wants a reading, to ask or to be told.
    Reads,
    /// The command asks this next.
    Asks { to: Actor, request: Request },
    /// The command is told this next.
    Tells(Told),
    /// This actor was asked, and did not answer so far.
    Awaits { to: Actor },
    /// This reply came, and is heard next.
    Hears { from: Actor, reply: Reply },
}

impl Stage {
    /// Where a session stands after this answer of its core. Out of memory ends the command.
    pub(crate) fn of(next: Result<Turn, Memory>) -> Stage
        ensures stage { result ≡ stage_after next }
        ensures fits { (core : SessionCore) → StandsAfter core next → does_fit core result ≡ true }
    {
        match next {
            Ok(Turn::Reading) => Stage::Reads,
            Ok(Turn::Ask { to, request }) => Stage::Asks { to, request },
            Ok(Turn::Tell(told)) => Stage::Tells(told),
            Err(_) => Stage::Tells(Told::Refused(ToldRefusal::Memory)),
        }
    }

    /// The actor that was asked, as long as it did not answer.
    pub(crate) fn awaits(&self) -> Option<Actor>
        ensures { result ≡ asked_of self.now }
    {
        match self {
            Stage::Awaits { to } => Some(*to),
            _ => None,
        }
    }
}
