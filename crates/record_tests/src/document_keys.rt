//! Document keys worked by hand: spellings, texts, hashes and refusals.
use doc_key::{KeyRefusal, decode, hash_of};
use std::test::*;

/// Spellings, the texts of their keys, and the hashes where there are hashed columns.
#[test]
fn spellings_by_hand(rt: HostRuntime) -> Result<(), Fail> {
    for (spelling, shown, hash) in [
        (b"\x53a\x00\x00\x21".as_slice(), "[;\"a\"]", None),
        (b"\x47\x19\x29\x54\x21\x21", "[true;]", Some(0x1929)),
        (
            b"\x47\xf3\x14\x46\x21\x54\x21",
            "[false;true]",
            Some(0xF314),
        ),
        (
            b"\x47\xd4\x51\x46\x46\x21\x21",
            "[false,false;]",
            Some(0xD451),
        ),
        (
            b"\x47\x63\xc4\x53a\x00\x00\x49\x7f\xff\xff\xff\xff\xff\xff\xff\x21\x54\x21",
            "[\"a\",-1;true]",
            Some(0x63C4),
        ),
        (
            b"\x47\xd5\x22\x49\x00\x00\x00\x00\x00\x00\x00\x00\x21\x21",
            "[-9223372036854775808;]",
            Some(0xD522),
        ),
        (
            b"\x47\xde\x38\x49\xff\xff\xff\xff\xff\xff\xff\xff\x21\x21",
            "[9223372036854775807;]",
            Some(0xDE38),
        ),
        (
            b"\x47\xfb\xe3\x53a\x00\x01b\x00\x00\x54\x21\x53\x22\x00\x00\x21",
            "[\"a\\x00b\",true;\"\\\"\"]",
            Some(0xFBE3),
        ),
        (
            b"\x46\x46\x46\x46\x46\x46\x46\x54\x21",
            "[;false,false,false,false,false,false,false,true]",
            None,
        ),
        (
            b"\x47\xf6\x6d\x46\x46\x46\x46\x46\x46\x46\x46\x21\x21",
            "[false,false,false,false,false,false,false,false;]",
            Some(0xF66D),
        ),
        (
            b"\x47\x65\xca\x46\x46\x46\x46\x46\x21\x54\x54\x54\x21",
            "[false,false,false,false,false;true,true,true]",
            Some(0x65CA),
        ),
    ] {
        let key = decode(rt.alloc(), spelling).ok().ok_or(shown)?;
        let mut again = Vec::new(rt.alloc());
        key.encode(&mut again)?;
        assert_eq!(rt; again.as_slice(), spelling, "{shown}");
        let mut text = Vec::new(rt.alloc());
        key.text(&mut text)?;
        assert_eq!(rt; text.as_slice(), shown.as_bytes());
        assert_eq!(rt; key.hash(), hash, "{shown}");
    }
    Ok(())
}

#[test]
fn hashes_by_hand(rt: HostRuntime) {
    for (bytes, hash) in [
        (b"".as_slice(), 0xF011),
        (b"\x54", 0x1929),
        (b"\x46", 0xF314),
        (b"\x46\x46", 0xD451),
    ] {
        assert_eq!(rt; hash_of(bytes), hash);
    }
}

#[test]
fn refusals_by_hand(rt: HostRuntime) {
    for (bytes, refusal) in [
        (b"".as_slice(), KeyRefusal::Truncated { at: 0 }),
        (b"\x53a\x00\x00", KeyRefusal::Truncated { at: 4 }),
        (b"\x53a\x00\x02", KeyRefusal::BadText { at: 3 }),
        (b"\x47\x19\x29\x54\x21\x21\x00", KeyRefusal::Spare { at: 6 }),
        (b"\x47\x00\x00\x54\x21\x21", KeyRefusal::BadHash { at: 1 }),
        (b"\x4b", KeyRefusal::BadTag { at: 0 }),
        // A prefix of a key with hashed columns.
        (b"\x47", KeyRefusal::Truncated { at: 1 }),
        (b"\x47\x19", KeyRefusal::Truncated { at: 2 }),
        (b"\x47\x19\x29", KeyRefusal::Truncated { at: 3 }),
        (b"\x47\x19\x29\x54", KeyRefusal::Truncated { at: 4 }),
        (b"\x47\x19\x29\x54\x21", KeyRefusal::Truncated { at: 5 }),
        // No column before the end of the first group.
        (b"\x21", KeyRefusal::BadTag { at: 0 }),
        (b"\x47\xf0\x11\x21\x21", KeyRefusal::BadTag { at: 3 }),
        (b"\x23", KeyRefusal::BadTag { at: 0 }),
        (b"\x46\x47", KeyRefusal::BadTag { at: 1 }),
        // A wrong hash, and another fault before it or behind it.
        (b"\x47\x00\x00\x54\x4b", KeyRefusal::BadTag { at: 4 }),
        (b"\x47\x00\x00\x54\x21\x4b", KeyRefusal::BadHash { at: 1 }),
        (b"\x47\x00\x00\x54\x21", KeyRefusal::BadHash { at: 1 }),
        // A ninth column, or something else in its place.
        (
            b"\x46\x46\x46\x46\x46\x46\x46\x46\x54",
            KeyRefusal::TooMany { at: 8 },
        ),
        (
            b"\x46\x46\x46\x46\x46\x46\x46\x46\x4b",
            KeyRefusal::BadTag { at: 8 },
        ),
        (
            b"\x46\x46\x46\x46\x46\x46\x46\x46",
            KeyRefusal::Truncated { at: 8 },
        ),
        (
            b"\x47\xf6\x6d\x46\x46\x46\x46\x46\x46\x46\x46\x46",
            KeyRefusal::TooMany { at: 11 },
        ),
        (
            b"\x47\xf6\x6d\x46\x46\x46\x46\x46\x46\x46\x46\x21\x49",
            KeyRefusal::TooMany { at: 12 },
        ),
        (
            b"\x47\x65\xca\x46\x46\x46\x46\x46\x21\x54\x54\x54\x53",
            KeyRefusal::TooMany { at: 12 },
        ),
    ] {
        assert_eq!(rt; decode(rt.alloc(), bytes).err(), Some(refusal));
    }
}

/// A text of 257 bytes as the second column is refused at its tag, whatever follows it.
#[test]
fn long_text(rt: HostRuntime) -> Result<(), Fail> {
    let mut bytes = Vec::from_slice(rt.alloc(), b"\x46\x53")?;
    for _ in 0..257 {
        bytes.push(b'a')?;
    }
    bytes.extend_from_slice(b"\x00\x00\x4b")?;
    assert_eq!(rt;
        decode(rt.alloc(), &bytes).err(),
        Some(KeyRefusal::TooLong { at: 1 })
    );
    Ok(())
}
