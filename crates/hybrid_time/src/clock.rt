//! The rules by which a clock moves.
ghost use Rattle.std.specs.Prelude.{◌≡◌, ◌≤◌, ◌<◌, IfOk};
ghost use Rattle.hybrid_time.specs.Time.{next_time, least_time, limit_time, time_at};

use crate::hybrid::HybridTime;
use crate::time_refusal::TimeRefusal;

const GREATEST_READING: u64 = 4_000_000_000_000_000;

/// A time of its own: above `last` and `floor`, and not below the reading, in microseconds.
pub fn next(last: HybridTime, floor: HybridTime, reading: u64) -> Result<HybridTime, TimeRefusal>
    ensures value { result ≡ next_time last floor reading }
    ensures above { IfOk result (λ time. (last < time) × (floor < time) × (time_at reading 0 ≤ time)) }
{
    let base = if last < floor { floor } else { last };
    if reading > GREATEST_READING {
        return Err(TimeRefusal::ClockRange { reading });
    }
    if reading > base.micros() {
        return Ok(HybridTime::of(reading, 0));
    }
    if base.logical() == 4095 {
        return Err(TimeRefusal::ClockFull { at: base });
    }
    Ok(HybridTime::of(base.micros(), base.logical() + 1))
}

/// The greatest of `last`, `floor` and the reading, in microseconds, with logical counter 0.
pub fn at_least(
    last: HybridTime,
    floor: HybridTime,
    reading: u64,
) -> Result<HybridTime, TimeRefusal>
    ensures { result ≡ least_time last floor reading }
{
    if reading > GREATEST_READING {
        return Err(TimeRefusal::ClockRange { reading });
    }
    let base = if last < floor { floor } else { last };
    let read = HybridTime::of(reading, 0);
    Ok(if base < read { read } else { base })
}

/// The end of the window of a read that took this reading, with clocks that differ by at most `skew` microseconds.
pub fn limit(reading: u64, skew: u64) -> HybridTime
    requires reading { reading ≤ 4000000000000000 }
    requires skew { skew ≤ 10000000 }
    ensures { result ≡ limit_time reading skew }
{
    HybridTime::of(reading + skew, 4095)
}
