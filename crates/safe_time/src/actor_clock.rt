//! The clock of a tablet or status tablet.
ghost use Rattle.std.specs.Prelude.{◌≡◌, ◌≤◌};
ghost use Rattle.safe_time.specs.ActorClock.{at_first, lease_for, served, taken, restarted};

use crate::clock_refusal::ClockRefusal;
use crate::step::Step;
use hybrid_time::{HybridTime, at_least, next};
use std::marker::Model;

/// The clock of a tablet or status tablet: its last time since the restart, and the end of its last logged lease.
#[derive(Debug, Drop)]
pub struct ActorClock {
    lease_us: u64,
    last: HybridTime,
    given: bool,
    until: Option<u64>,
}

impl Model for ActorClock {
    ghost use Rattle.std.specs.Prelude.{◌≤◌};
    ghost use Rattle.safe_time.specs.ActorClock.{ClockState};

    ghost Value = { ClockState };

    ghost view = { λ c. record { lease = c.lease_us; last = c.last; given = c.given; until = c.until } };

    ghost invariant = { λ c. c.lease_us ≤ 60000000 };
}

impl ActorClock {
    /// A clock whose leases last so many microseconds. It takes no memory.
    pub fn new(lease_us: u64) -> ActorClock
        requires { lease_us ≤ 60000000 }
        ensures { result ≡ at_first lease_us }
    {
        ActorClock {
            lease_us,
            last: HybridTime::ZERO,
            given: false,
            until: None,
        }
    }

    fn lease_for(&self, time: HybridTime) -> Option<u64>
        ensures { result ≡ lease_for self.now time }
    {
        match self.until {
            Some(until) if time.micros() <= until => None,
            _ => Some(time.micros() + self.lease_us),
        }
    }

    /// The next time at this reading, in microseconds: where it ticks, one of its own, above its last time and above
    /// `floor`; else one that is not below the two and the reading. It changes nothing, and takes no memory. The
    /// caller logs the lease of the step before it gives the time, and then says so by `took`.
    pub fn serve(&self, reading: u64, floor: HybridTime, tick: bool) -> Result<Step, ClockRefusal>
        ensures { result ≡ served self.now reading floor tick }
    {
        if let Some(until) = self.until
            && !self.given
            && reading <= until
        {
            return Err(ClockRefusal::LeaseHeld { until });
        }
        let time = if tick {
            next(self.last, floor, reading)?
        } else {
            at_least(self.last, floor, reading)?
        };
        Ok(Step {
            time,
            lease: self.lease_for(time),
        })
    }

    /// The time of the step was given, and its lease is in the log. It takes no memory.
    pub fn took(&mut self, step: Step)
        ensures { self.new ≡ taken self.old step }
    {
        if self.last < step.time {
            self.last = step.time;
        }
        self.given = true;
        if step.lease.is_some() {
            self.until = step.lease;
        }
    }

    /// The actor was restarted; `until` is the end of the last lease in its log, in microseconds. It takes no memory.
    pub fn after_restart(&mut self, until: Option<u64>)
        ensures { self.new ≡ restarted self.old until }
    {
        self.last = HybridTime::ZERO;
        self.given = false;
        self.until = until;
    }

    /// The end of the last logged lease, in microseconds. It takes no memory.
    pub fn lease_of(&self) -> Option<u64>
        ensures { result ≡ self.now.until }
    {
        self.until
    }
}
