//! A finished read before whose origin a clock was too far ahead.
ghost use Rattle.std.specs.Prelude.{◌≡◌, ◌+◌, ◌<◌, ◌↔◌, IsTrue};
ghost use Rattle.trace_merge.specs.Seen.{IsEarlier};

/// A finished read before whose origin a clock was too far ahead.
#[derive(Clone, Copy, Debug)]
pub struct FailedRead {
    /// The place of its Start, from 0.
    pub start: u64,
    /// The first reading that its session recorded from its origin on, in microseconds.
    pub own: u64,
}

/// Whether a reading is above another one plus the skew, all in microseconds.
pub fn is_ahead(reading: u64, own: u64, skew_us: u64) -> bool
    ensures { IsTrue result ↔ (own + skew_us < reading) }
{
    reading.saturating_sub(own) > skew_us
}

/// The one of two that starts first, where there are two.
pub fn earlier(one: Option<FailedRead>, other: Option<FailedRead>) -> Option<FailedRead>
    ensures { IsEarlier one other result }
{
    match one {
        None => other,
        Some(known) => match other {
            Some(new) if new.start < known.start => other,
            _ => one,
        },
    }
}
