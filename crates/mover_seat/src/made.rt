//! An entry that a mover makes.
ghost use Rattle.std.specs.Prelude.{◌≡◌};
ghost use Rattle.mover_seat.specs.Made.{starts_made, asks_made, hears_made, tells_made};

use crate::moved::Moved;
use crate::stage::Stage;
use txn_types::{Actor, Command, Event, Reply, Request, Told};

/// An entry that a mover makes, what it does besides, and where the mover then stands.
#[derive(Debug, Drop)]
pub(crate) struct Made {
    pub(crate) reading: Option<u64>,
    pub(crate) event: Event,
    pub(crate) moved: Moved,
    pub(crate) stage: Stage,
}

impl Made {
    /// A line starts.
    pub(crate) fn starts(command: u32, line: Command, stage: Stage) -> Made
        ensures { result ≡ starts_made command line stage }
    {
        Made {
            reading: None,
            event: Event::Start { command, line },
            moved: Moved::Event,
            stage,
        }
    }

    /// A request leaves.
    pub(crate) fn asks(reading: Option<u64>, to: Actor, request: Request) -> Made
        ensures { result ≡ asks_made reading to request }
    {
        Made {
            reading,
            event: Event::Ask { to, request },
            moved: Moved::Event,
            stage: Stage::Awaits { to },
        }
    }

    /// A reply is heard.
    pub(crate) fn hears(from: Actor, reply: Reply, stage: Stage) -> Made
        ensures { result ≡ hears_made from reply stage }
    {
        Made {
            reading: None,
            event: Event::Hear { from, reply },
            moved: Moved::Event,
            stage,
        }
    }

    /// A command is told, whose line sets this clock.
    pub(crate) fn tells(reading: Option<u64>, command: u32, clock: Moved, told: Told) -> Made
        ensures { result ≡ tells_made reading command clock told }
    {
        let moved = match &told {
            Told::Set => clock,
            _ => Moved::Event,
        };
        Made {
            reading,
            event: Event::Tell { command, told },
            moved,
            stage: Stage::Between,
        }
    }
}
