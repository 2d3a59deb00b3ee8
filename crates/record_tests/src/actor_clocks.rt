//! Steps worked by hand, with leases of 2,000,000 microseconds.
use hybrid_time::HybridTime;
use safe_time::{ActorClock, ClockRefusal, Step};

const LEASE: u64 = 2_000_000;

const GREATEST: u64 = 4_000_000_000_000_000;

fn clock(last: HybridTime, given: bool, until: Option<u64>) -> ActorClock {
    let mut clock = ActorClock::new(LEASE);
    clock.after_restart(until);
    if given {
        clock.took(Step {
            time: last,
            lease: None,
        });
    }
    clock
}

/// What a clock serves: its last time where one was given since the restart, the end of its lease, the reading, the floor,
/// whether it ticks.
#[test]
fn steps_by_hand(rt: HostRuntime) {
    let zero = HybridTime::ZERO;
    let early = HybridTime::of(1_000_000, 0);
    let full = HybridTime::of(1_000_000, 4095);
    let at_end = HybridTime::of(3_000_000, 7);
    let step = |time, lease| Ok(Step { time, lease });
    for (last, until, reading, floor, tick, answer) in [
        // The first time needs a lease; a later one within it needs none.
        (
            None,
            None,
            1_000_000,
            zero,
            true,
            step(early, Some(3_000_000)),
        ),
        (
            None,
            None,
            1_000_000,
            zero,
            false,
            step(early, Some(3_000_000)),
        ),
        (
            Some(early),
            Some(3_000_000),
            1_000_000,
            zero,
            true,
            step(HybridTime::of(1_000_000, 1), None),
        ),
        (
            Some(early),
            Some(3_000_000),
            1_000_000,
            zero,
            false,
            step(early, None),
        ),
        // The end of the lease is within it, and one microsecond more is not.
        (
            Some(early),
            Some(3_000_000),
            3_000_000,
            zero,
            true,
            step(HybridTime::of(3_000_000, 0), None),
        ),
        (
            Some(early),
            Some(3_000_000),
            3_000_001,
            zero,
            true,
            step(HybridTime::of(3_000_001, 0), Some(5_000_001)),
        ),
        (
            Some(early),
            Some(3_000_000),
            1_000_000,
            at_end,
            false,
            step(at_end, None),
        ),
        (
            Some(early),
            Some(2_999_999),
            1_000_000,
            at_end,
            false,
            step(at_end, Some(5_000_000)),
        ),
        // A reading of 0: the time 0.0 is given, and needs a lease.
        (None, None, 0, zero, false, step(zero, Some(2_000_000))),
        (
            Some(zero),
            Some(2_000_000),
            0,
            zero,
            false,
            step(zero, None),
        ),
        // After a restart the lease holds, whatever the floor, until the reading is above its end.
        (
            None,
            Some(2_000_000),
            0,
            zero,
            false,
            Err(ClockRefusal::LeaseHeld { until: 2_000_000 }),
        ),
        (
            None,
            Some(3_000_000),
            3_000_000,
            HybridTime::of(9_000_000, 0),
            true,
            Err(ClockRefusal::LeaseHeld { until: 3_000_000 }),
        ),
        (
            None,
            Some(3_000_000),
            3_000_001,
            zero,
            true,
            step(HybridTime::of(3_000_001, 0), Some(5_000_001)),
        ),
        // The order of the refusals.
        (
            None,
            Some(GREATEST + 1),
            GREATEST + 1,
            full,
            true,
            Err(ClockRefusal::LeaseHeld {
                until: GREATEST + 1,
            }),
        ),
        (
            None,
            Some(GREATEST),
            GREATEST + 1,
            full,
            true,
            Err(ClockRefusal::ClockRange {
                reading: GREATEST + 1,
            }),
        ),
        (
            Some(full),
            Some(3_000_000),
            1_000_000,
            zero,
            true,
            Err(ClockRefusal::ClockFull { at: full }),
        ),
        (
            Some(early),
            Some(3_000_000),
            1_000_000,
            full,
            true,
            Err(ClockRefusal::ClockFull { at: full }),
        ),
        (
            Some(full),
            Some(3_000_000),
            1_000_000,
            zero,
            false,
            step(full, None),
        ),
        (
            Some(full),
            Some(3_000_000),
            1_000_001,
            zero,
            true,
            step(HybridTime::of(1_000_001, 0), None),
        ),
    ] {
        let clock = clock(last.unwrap_or(zero), last.is_some(), until);
        assert_eq!(rt;
            clock.serve(reading, floor, tick),
            answer,
            "{last:?} {until:?} {reading} {floor:?} {tick}"
        );
        assert_eq!(rt; clock.lease_of(), until);
    }
}

/// A time whose append failed and was lost is given again after the restart; where the log kept it, the lease holds.
#[test]
fn a_lost_time_may_come_again(rt: HostRuntime) {
    let mut clock = ActorClock::new(LEASE);
    let first = clock.serve(1_000_000, HybridTime::ZERO, true);
    clock.after_restart(None);
    assert_eq!(rt; clock.serve(1_000_000, HybridTime::ZERO, true), first);
    clock.after_restart(Some(3_000_000));
    assert_eq!(rt;
        clock.serve(1_000_000, HybridTime::ZERO, true),
        Err(ClockRefusal::LeaseHeld { until: 3_000_000 })
    );
}
