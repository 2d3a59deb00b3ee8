//! Tests.
use super::*;

#[test]
fn ranges_by_hand(rt: HostRuntime) {
    for (i, n, range) in [
        (0, 1, (0, 65536)),
        (0, 2, (0, 32768)),
        (1, 2, (32768, 65536)),
        (0, 3, (0, 21846)),
        (1, 3, (21846, 43691)),
        (2, 3, (43691, 65536)),
        (63, 64, (64512, 65536)),
    ] {
        assert!(rt; 1 <= n && n <= 64 && i < n);
        assert_eq!(rt; range_of(i, n), range, "tablet {i} of {n}");
    }
}

#[test]
fn every_hash_of_64_tablets(rt: HostRuntime) {
    for hash in 0..65536u32 {
        assert!(rt; hash < 65536);
        let tablet = tablet_of(hash as u16, 64);
        assert_eq!(rt; tablet, hash / 1024);
        let (first, next) = range_of(tablet, 64);
        assert!(rt; first <= hash && hash < next);
    }
}

/// Hashes about the bounds of ranges that do not part the hashes evenly, and of 8 that do.
#[test]
fn hashes_that_round(rt: HostRuntime) {
    for (hash, n, tablet) in [
        (0, 3, 0),
        (21845, 3, 0),
        (21846, 3, 1),
        (43690, 3, 1),
        (43691, 3, 2),
        (65535, 3, 2),
        (8191, 8, 0),
        (8192, 8, 1),
        (57343, 8, 6),
        (57344, 8, 7),
        (65535, 8, 7),
    ] {
        assert!(rt; 1 <= n && n <= 64);
        assert_eq!(rt; tablet_of(hash, n), tablet, "hash {hash} over {n}");
    }
}
