//! Records worked by hand. The id in them is that of session 1 with the serial number 2, the time 1000000.1.
use log_record::{RecordRefusal, decode};
use std::test::Fail;

/// One record of each kind is read and spelled again, and each front of it is truncated where it ends.
#[test]
fn each_kind(rt: HostRuntime) -> Result<(), Fail> {
    let alloc = rt.alloc();
    for bytes in [
        b"\x01\0\0\0\0\0\x2d\xc6\xc0".as_slice(),
        b"\x02\0\0\0\0\0\0\0\x01\0\0\0\0\0\0\0\x02\0\0\0\x03\0\0\0\0\x04\0\0\0\x05\0\0\0\0\xf4\x24\0\x01\x02\0\0\0\x01a\0\0\0\x02bc\x01\0\0\0\x01v",
        b"\x03\0\0\0\0\0\0\0\x01\0\0\0\0\0\0\0\x02\0\0\0\0\xf4\x24\0\x01",
        b"\x04\0\0\0\0\0\0\0\x01\0\0\0\0\0\0\0\x02",
        b"\x05\0\0\0\0\0\0\0\x01\0\0\0\0\0\0\0\x02\0\0\0\0\xf4\x24\0\x01\x02\0\0\0\x01a\0\0\0\x02bc\0",
        b"\x06\0\0\0\0\0\0\0\x01\0\0\0\0\0\0\0\x02\0\0\0\0\x09",
        b"\x07\0\0\0\0\0\0\0\x01\0\0\0\0\0\0\0\x02\0\0\0\0\xf4\x24\0\x01\0\0\0\x02\0\0\0\x06\0\0\0\x07",
        b"\x08\0\0\0\0\0\0\0\x01\0\0\0\0\0\0\0\x02\0",
        b"\x08\0\0\0\0\0\0\0\x01\0\0\0\0\0\0\0\x02\x01\0\0\0\0\0\0\0\x03\0\0\0\0\0\0\0\x04",
        b"\x09\0\0\0\0\0\0\0\x01\0\0\0\0\0\0\0\x02",
    ] {
        let record = decode(alloc, bytes).ok().ok_or("decode")?;
        assert!(rt; record.has_spelling());
        let mut again = Vec::new(alloc);
        record.encode(&mut again)?;
        assert_eq!(rt; again.as_slice(), bytes);
        for len in 0..bytes.len() {
            let at = len as u64;
            assert_eq!(rt;
                decode(alloc, &bytes[..len]).err(),
                Some(RecordRefusal::Truncated { at })
            );
        }
        again.push(0)?;
        let at = bytes.len() as u64;
        assert_eq!(rt;
            decode(alloc, &again).err(),
            Some(RecordRefusal::Spare { at })
        );
    }
    Ok(())
}

/// A Commit before the count of its tablets.
const COMMIT: &[u8] = b"\x07\0\0\0\0\0\0\0\x01\0\0\0\0\0\0\0\x02\0\0\0\0\xf4\x24\0\x01";

/// A Single before the count of the parts of its path.
const SINGLE: &[u8] = b"\x05\0\0\0\0\0\0\0\x01\0\0\0\0\0\0\0\x02\0\0\0\0\xf4\x24\0\x01";

/// The same before the length of its value.
const VALUE: &[u8] =
    b"\x05\0\0\0\0\0\0\0\x01\0\0\0\0\0\0\0\x02\0\0\0\0\xf4\x24\0\x01\x01\0\0\0\x01a\x01";

/// A Write, a Begin and an Abort before their flags.
const WRITE: &[u8] = b"\x02\0\0\0\0\0\0\0\x01\0\0\0\0\0\0\0\x02\0\0\0\x03";

const BEGIN: &[u8] = b"\x06\0\0\0\0\0\0\0\x01\0\0\0\0\0\0\0\x02";

const ABORT: &[u8] = b"\x08\0\0\0\0\0\0\0\x01\0\0\0\0\0\0\0\x02";

fn length(at: u64) -> Option<RecordRefusal> {
    Some(RecordRefusal::BadLength { at })
}

fn flag(at: u64) -> Option<RecordRefusal> {
    Some(RecordRefusal::BadFlag { at })
}

/// What bytes of the first are, with the second behind them, and the third so often behind both.
#[test]
fn refusals_by_hand(rt: HostRuntime) -> Result<(), Fail> {
    let alloc = rt.alloc();
    for (front, middle, piece, count, refusal) in [
        (COMMIT, b"\0\0\0\0".as_slice(), b"".as_slice(), 0, None),
        (COMMIT, b"\0\0\0\x40", b"\0\0\0\x07", 64, None),
        (COMMIT, b"\0\0\0\x41", b"\0\0\0\x07", 65, length(25)),
        // Parts of a path.
        (SINGLE, b"\0", b"", 0, length(25)),
        (SINGLE, b"\x01\0\0\0\x01a\0", b"", 0, None),
        (
            SINGLE,
            b"\x05\0\0\0\x01a\0\0\0\x01a\0\0\0\x01a\0\0\0\x01a\0\0\0\x01a\0",
            b"",
            0,
            None,
        ),
        (SINGLE, b"\x06", b"\0\0\0\x01a", 6, length(25)),
        // Bytes of a part.
        (SINGLE, b"\x01\0\0\0\0\0", b"", 0, length(26)),
        (SINGLE, b"\x01\0\x01\0\0", b"\0", 65_537, None),
        (SINGLE, b"\x01\0\x01\0\x01", b"\0", 65_538, length(26)),
        // Bytes of a value.
        (VALUE, b"\0\0\0\0", b"", 0, length(32)),
        (VALUE, b"\0\0\0\x01v", b"", 0, None),
        (VALUE, b"\0\x01\0\0", b"v", 65_536, None),
        (VALUE, b"\0\x01\0\x01", b"v", 65_537, length(32)),
        // Flags.
        (SINGLE, b"\x01\0\0\0\x01a\x02", b"", 0, flag(31)),
        (WRITE, b"\x02", b"", 0, flag(21)),
        (BEGIN, b"\x01\0\0\0\x09", b"", 0, flag(17)),
        (ABORT, b"\x02", b"", 0, flag(17)),
        // The first of two faults.
        (SINGLE, b"\x07\0\0\0\0\x02", b"", 0, length(25)),
        (SINGLE, b"\x02\0\0\0\x01a\xff\0\0\0", b"", 0, length(31)),
        (b"\0", VALUE, b"", 0, Some(RecordRefusal::BadKind { at: 0 })),
        (b"\x0a", b"", b"", 0, Some(RecordRefusal::BadKind { at: 0 })),
    ] {
        let mut bytes = Vec::from_slice(alloc, front)?;
        bytes.extend_from_slice(middle)?;
        for _ in 0..count {
            bytes.extend_from_slice(piece)?;
        }
        assert_eq!(rt; decode(alloc, &bytes).err(), refusal, "{middle:?}");
    }
    Ok(())
}
