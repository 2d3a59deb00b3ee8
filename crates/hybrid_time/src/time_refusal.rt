//! Why a clock gives no time.
use crate::hybrid::HybridTime;
use std::error::Error;
use std::fmt;

/// Why a clock gives no time.
#[derive(Clone, Copy, Debug, PartialEq, Eq)]
pub enum TimeRefusal {
    /// The logical counter of `at`, the greater of the last time and the floor, stands at its end, and the reading is not later.
    ClockFull { at: HybridTime },
    /// The reading, in microseconds, is above the greatest that a clock takes.
    ClockRange { reading: u64 },
}

impl fmt::Display for TimeRefusal {
    fn fmt<W: fmt::Write>(&self, f: &mut fmt::Formatter<W>) -> fmt::Result {
        match self {
            TimeRefusal::ClockFull { at } => write!(f, "the logical counter of {at} is at its end"),
            TimeRefusal::ClockRange { reading } => write!(
                f,
                "the reading {reading} is above the greatest that a clock takes"
            ),
        }
    }
}

impl Error for TimeRefusal {}
