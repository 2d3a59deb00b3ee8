//! A law of movers. A call does nothing.
ghost use Rattle.mover_seat.specs.Laws.{EventsAreOwn, NumbersAreOwn};

/// What a mover does next depends on its own entries, on the message on its way, and on whether all lines were told. The
/// number of the command or pass that this is of depends on its own entries alone.
pub fn events_are_own()
    ensures events { EventsAreOwn }
    ensures numbers { NumbersAreOwn }
{}
