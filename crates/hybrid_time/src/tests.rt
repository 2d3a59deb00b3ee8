//! Times worked by hand.
use crate::{HybridTime, TimeRefusal, at_least, limit, next};
use docdb_base::TryCopy;
use std::test::Fail;

const GREATEST: u64 = 4_000_000_000_000_000;

#[test]
fn moves_a_clock(rt: HostRuntime) {
    let (zero, early) = (HybridTime::ZERO, HybridTime::of(10, 5));
    let (read, read_next) = (HybridTime::of(20, 0), HybridTime::of(20, 1));
    let (late, late_next) = (HybridTime::of(30, 7), HybridTime::of(30, 8));
    let (full, greatest) = (HybridTime::of(20, 4095), HybridTime::of(GREATEST, 0));
    let rows = [
        (zero, zero, 0, HybridTime::of(0, 1), zero),
        (early, zero, 20, read, read),
        (read, zero, 20, read_next, read),
        (early, late, 20, late_next, late),
        (late, early, 20, late_next, late),
        (full, late, 20, late_next, late),
        (full, full, GREATEST, greatest, greatest),
    ];
    for (last, floor, reading, own, least) in rows {
        assert_eq!(rt;
            next(last, floor, reading),
            Ok(own),
            "{last:?} {floor:?} {reading}"
        );
        assert_eq!(rt;
            at_least(last, floor, reading),
            Ok(least),
            "{last:?} {floor:?} {reading}"
        );
    }
}

#[test]
fn refuses(rt: HostRuntime) {
    let (early, full) = (HybridTime::of(10, 5), HybridTime::of(20, 4095));
    for (last, floor) in [(early, full), (full, early), (full, full)] {
        assert_eq!(rt;
            next(last, floor, 20),
            Err(TimeRefusal::ClockFull { at: full })
        );
        assert_eq!(rt; at_least(last, floor, 20), Ok(full));
    }
    let reading = GREATEST + 1;
    assert_eq!(rt;
        next(early, full, reading),
        Err(TimeRefusal::ClockRange { reading })
    );
    assert_eq!(rt;
        at_least(early, full, reading),
        Err(TimeRefusal::ClockRange { reading })
    );
}

#[test]
fn ends_a_window(rt: HostRuntime) -> Result<(), Fail> {
    let end = limit(1_000_000, 500_000);
    assert_eq!(rt; end, HybridTime::of(1_500_000, 4095));
    assert_eq!(rt; end.try_copy(rt.alloc())?, end);
    assert_eq!(rt; end.micros(), 1_500_000);
    assert_eq!(rt; end.logical(), 4095);
    Ok(())
}
