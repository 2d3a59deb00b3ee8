//! Why a clock gives no time.
ghost use Rattle.std.specs.Prelude.{◌≡◌};
ghost use Rattle.safe_time.specs.Refusals.{refused_by};

use hybrid_time::{HybridTime, TimeRefusal};
use std::error::Error;
use std::fmt;

/// Why a clock gives no time.
#[derive(Clone, Copy, Debug, PartialEq, Eq)]
pub enum ClockRefusal {
    /// No time was given since the restart, and the reading is not above the end of the lease, in microseconds.
    LeaseHeld { until: u64 },
    /// The reading, in microseconds, is above the greatest that a clock takes.
    ClockRange { reading: u64 },
    /// The logical counter of `at`, the greater of the last time and the floor, stands at its end, and the reading is not later.
    ClockFull { at: HybridTime },
}

impl From<TimeRefusal> for ClockRefusal {
    ghost from_gives = { λ time e. e ≡ refused_by time };

    fn from(refusal: TimeRefusal) -> ClockRefusal {
        match refusal {
            TimeRefusal::ClockFull { at } => ClockRefusal::ClockFull { at },
            TimeRefusal::ClockRange { reading } => ClockRefusal::ClockRange { reading },
        }
    }
}

impl fmt::Display for ClockRefusal {
    fn fmt<W: fmt::Write>(&self, f: &mut fmt::Formatter<W>) -> fmt::Result {
        match self {
            ClockRefusal::LeaseHeld { until } => write!(
                f,
                "the reading is not above the end of the lease, {until}"
            ),
            ClockRefusal::ClockRange { reading } => write!(
                f,
                "the reading {reading} is above the greatest that a clock takes"
            ),
            ClockRefusal::ClockFull { at } => write!(
                f,
                "the logical counter of {at} is at its end"
            ),
        }
    }
}

impl Error for ClockRefusal {}
