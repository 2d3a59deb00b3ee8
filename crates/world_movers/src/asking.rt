//! What a mover waits for.
ghost use Rattle.std.specs.Prelude.{◌≡◌};
ghost use Rattle.world_movers.specs.Asked.{place_after};

use txn_types::{Actor, Event};

/// What a mover waits for.
#[derive(Clone, Copy, Debug, PartialEq, Eq)]
pub struct Asking {
    /// The machine that was asked, and did not answer so far.
    pub to: Actor,
    /// The place of the entry that asked, which has the request: how many entries the history had before it.
    pub at: usize,
}

/// The place of the entry that asked last, after this event of a mover at a place.
pub(crate) fn place_after(event: &Event, at: usize, before: usize) -> usize
    ensures { result ≡ place_after event.now at before }
{
    match event {
        Event::Ask { .. } => at,
        _ => before,
    }
}
