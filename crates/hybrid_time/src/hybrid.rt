//! A hybrid time.
ghost use Rattle.std.specs.Prelude.{◌≡◌, ℕ, ◌<◌, ◌^◌};
ghost use Rattle.hybrid_time.specs.Time.{time_at, micros_of, logical_of};

use docdb_base::{Memory, TryCopy};
use std::alloc::Global;
use std::fmt;
use std::marker::Model;

/// A hybrid time: microseconds in its upper 52 bits, a logical counter in its lower 12 bits. Contracts see the number.
#[derive(Clone, Copy, Debug, PartialEq, Eq, PartialOrd, Ord, Hash)]
pub struct HybridTime {
    bits: u64,
}

impl Model for HybridTime {
    ghost use Rattle.std.specs.Prelude.{ℕ};

    ghost Value = { ℕ };

    ghost view = { λ t. t.bits };

    ghost inverse = { λ n. record { bits = n } };
}

impl HybridTime {
    /// The time 0.0, before all others.
    pub const ZERO: HybridTime = HybridTime { bits: 0 };

    /// The time of these microseconds and this logical counter.
    pub fn of(micros: u64, logical: u16) -> HybridTime
        requires micros { micros < 2 ^ 52 }
        requires logical { logical < 4096 }
        ensures { result ≡ time_at micros logical }
    {
        HybridTime {
            bits: micros * 4096 + u64::from(logical),
        }
    }

    /// Its microseconds.
    pub fn micros(self) -> u64
        ensures { result ≡ micros_of self }
    {
        self.bits / 4096
    }

    /// Its logical counter, below 4096.
    pub fn logical(self) -> u16
        ensures { result ≡ logical_of self }
    {
        (self.bits % 4096) as u16
    }
}

impl fmt::Display for HybridTime {
    fn fmt<W: fmt::Write>(&self, f: &mut fmt::Formatter<W>) -> fmt::Result {
        let micros = self.micros();
        let logical = self.logical();
        write!(f, "{micros}.{logical}")
    }
}

impl TryCopy for HybridTime {
    fn try_copy(&self, _alloc: Global) -> Result<HybridTime, Memory> {
        Ok(*self)
    }
}
