//! Values worked by hand: spellings, texts and refusals.
use doc_value::{KeyRefusal, decode};
use std::test::*;

/// Spellings, and the texts of their values.
#[test]
fn spellings_by_hand(rt: HostRuntime) -> Result<(), Fail> {
    for (spelling, shown) in [
        (b"\x46".as_slice(), "false"),
        (b"\x54", "true"),
        (
            b"\x49\x00\x00\x00\x00\x00\x00\x00\x00",
            "-9223372036854775808",
        ),
        (b"\x49\x7f\xff\xff\xff\xff\xff\xff\xff", "-1"),
        (b"\x49\x80\x00\x00\x00\x00\x00\x00\x00", "0"),
        (b"\x49\x80\x00\x00\x00\x00\x00\x01\x02", "258"),
        (
            b"\x49\xff\xff\xff\xff\xff\xff\xff\xff",
            "9223372036854775807",
        ),
        (b"\x4b\x00\x00\x00\x01", "#1"),
        (b"\x4b\xff\xff\xff\xff", "#4294967295"),
        (b"\x53\x00\x00", "\"\""),
        (b"\x53a\x00\x01b\x00\x00", "\"a\\x00b\""),
        (b"\x53\x00\x01\x00\x01\x00\x00", "\"\\x00\\x00\""),
        (
            b"\x53 \x22\x5c~\x1f\x7f\xc3\xa9\x00\x00",
            "\" \\\"\\\\~\\x1f\\x7f\\xc3\\xa9\"",
        ),
    ] {
        let value = decode(rt.alloc(), spelling).ok().ok_or(shown)?;
        let mut again = Vec::new(rt.alloc());
        value.encode(&mut again)?;
        assert_eq!(rt; again.as_slice(), spelling, "{shown}");
        let mut text = Vec::new(rt.alloc());
        value.text(&mut text)?;
        assert_eq!(rt; text.as_slice(), shown.as_bytes());
    }
    Ok(())
}

#[test]
fn refusals_by_hand(rt: HostRuntime) {
    for (bytes, refusal) in [
        (b"".as_slice(), KeyRefusal::Truncated { at: 0 }),
        (b"\x21", KeyRefusal::BadTag { at: 0 }),
        (b"\x23", KeyRefusal::BadTag { at: 0 }),
        (b"\x47", KeyRefusal::BadTag { at: 0 }),
        (
            b"\x49\x00\x00\x00\x00\x00\x00\x00",
            KeyRefusal::Truncated { at: 8 },
        ),
        (b"\x4b\x00\x00\x00", KeyRefusal::Truncated { at: 4 }),
        (b"\x53", KeyRefusal::Truncated { at: 1 }),
        (b"\x53a\x00", KeyRefusal::Truncated { at: 3 }),
        (b"\x53a\x00\x01", KeyRefusal::Truncated { at: 4 }),
        (b"\x53a\x00\x02", KeyRefusal::BadText { at: 3 }),
        (b"\x53a\x00\xff\x00\x00\x00", KeyRefusal::BadText { at: 3 }),
        (b"\x46\x46", KeyRefusal::Spare { at: 1 }),
        (b"\x53a\x00\x00\x01", KeyRefusal::Spare { at: 4 }),
    ] {
        assert_eq!(rt; decode(rt.alloc(), bytes).err(), Some(refusal));
    }
}

/// A tag, as many times the piece, and the end.
fn long_text(rt: &HostRuntime, piece: &[u8], times: usize, end: &[u8]) -> Result<Vec<u8>, Fail> {
    let mut bytes = Vec::new(rt.alloc());
    bytes.push(0x53)?;
    for _ in 0..times {
        bytes.extend_from_slice(piece)?;
    }
    bytes.extend_from_slice(end)?;
    Ok(bytes)
}

#[test]
fn long_texts(rt: HostRuntime) -> Result<(), Fail> {
    let too_long = Some(KeyRefusal::TooLong { at: 0 });
    for (piece, times, end, refusal) in [
        (b"a".as_slice(), 256, b"\x00\x00".as_slice(), None),
        (b"a", 257, b"\x00\x00", too_long),
        (b"\x00\x01", 256, b"\x00\x00", None),
        (b"\x00\x01", 257, b"\x00\x00", too_long),
        (b"a", 257, b"\x00\x00\x21", too_long),
        (b"a", 257, b"", Some(KeyRefusal::Truncated { at: 258 })),
        (
            b"a",
            257,
            b"\x00\x02",
            Some(KeyRefusal::BadText { at: 259 }),
        ),
        (
            b"a",
            256,
            b"\x00\x00\x21",
            Some(KeyRefusal::Spare { at: 259 }),
        ),
    ] {
        let bytes = long_text(&rt, piece, times, end)?;
        assert_eq!(rt; decode(rt.alloc(), &bytes).err(), refusal);
    }
    Ok(())
}
