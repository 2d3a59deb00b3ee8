//! What an event tells of a session.
ghost use Rattle.std.specs.Prelude.{◌≡◌};
ghost use Rattle.txn_types.specs.History.{is_start};
ghost use Rattle.law_own_readings.specs.Laws.{is_began};
ghost use Rattle.trace_merge.specs.Seen.{is_values};

use txn_types::{Event, Told};

/// Whether a command begins.
pub fn starts(event: &Event) -> bool
    ensures { result ≡ is_start event.now }
{
    matches!(event, Event::Start { .. })
}

/// Whether it is told that a transaction began.
pub fn begins(event: &Event) -> bool
    ensures { result ≡ is_began event.now }
{
    matches!(
        event,
        Event::Tell {
            told: Told::Began { .. },
            ..
        }
    )
}

/// Whether a read is told its values.
pub fn finishes_read(event: &Event) -> bool
    ensures { result ≡ is_values event.now }
{
    matches!(
        event,
        Event::Tell {
            told: Told::Values { .. },
            ..
        }
    )
}
