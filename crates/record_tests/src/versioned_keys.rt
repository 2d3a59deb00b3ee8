//! Versioned keys worked by hand: bytes, refusals, and the texts of paths.
use doc_path::Path;
use hybrid_time::HybridTime;
use std::test::*;
use sub_doc_key::{KeyRefusal, decode, encode, path_text};

/// The path of these parts.
fn path_of(rt: &HostRuntime, first: &[u8], subkeys: &[&[u8]]) -> Result<Path, Fail> {
    let mut path = Path::of(rt.alloc(), first)?;
    for subkey in subkeys {
        path.push(subkey).ok().ok_or("no room")?;
    }
    Ok(path)
}

/// The parts of a path one behind another, and its text.
#[test]
fn texts_by_hand(rt: HostRuntime) -> Result<(), Fail> {
    for (parts, shown) in [
        (
            b"\x47\x63\xc4\x53a\x00\x00\x49\x7f\xff\xff\xff\xff\xff\xff\xff\x21\x54\x21\x4b\x00\x00\x00\x07\x53b\x00\x00".as_slice(),
            "[\"a\",-1;true]/#7/\"b\"",
        ),
        (b"\x46\x21", "[;false]"),
        (
            b"\x53\x22\x00\x00\x21\x53\x00\x01\x5c\x00\x00\x49\x80\x00\x00\x00\x00\x00\x00\x00\x54\x46",
            "[;\"\\\"\"]/\"\\x00\\\\\"/0/true/false",
        ),
    ] {
        let mut bytes = Vec::from_slice(rt.alloc(), parts)?;
        bytes.extend_from_slice(b"\x23\xff\xff\xff\xff\xff\xff\xff\xff\xff\xff\xff\xff")?;
        let key = decode(rt.alloc(), &bytes).ok().ok_or(shown)?;
        let mut text = Vec::new(rt.alloc());
        path_text(&key.path, &mut text)?;
        assert_eq!(rt; text.as_slice(), shown.as_bytes());
    }
    // A part that spells no value.
    let path = path_of(&rt, b"\x46\x21", &[b"\x21", b"\x54"])?;
    let mut text = Vec::new(rt.alloc());
    path_text(&path, &mut text)?;
    assert_eq!(rt; text.as_slice(), b"[;false]//true".as_slice());
    Ok(())
}

/// The bytes of a document key and subkeys, and the time and the write number of a version, as they are read.
#[test]
fn versions_by_hand(rt: HostRuntime) -> Result<(), Fail> {
    for (bytes, parts, micros, logical, number) in [
        (
            b"\x53a\x00\x00\x21\x4b\x00\x00\x00\x01\x23\xff\xff\xff\xff\x0b\xdb\xff\xfe\xff\xff\xff\xff".as_slice(),
            [b"\x53a\x00\x00\x21".as_slice(), b"\x4b\x00\x00\x00\x01"].as_slice(),
            1_000_000,
            1,
            0,
        ),
        // The least time and write number, and the greatest.
        (
            b"\x46\x21\x23\xff\xff\xff\xff\xff\xff\xff\xff\xff\xff\xff\xff",
            &[b"\x46\x21"],
            0,
            0,
            0,
        ),
        (
            b"\x46\x21\x23\x00\x00\x00\x00\x00\x00\x00\x00\x00\x00\x00\x00",
            &[b"\x46\x21"],
            4_503_599_627_370_495,
            4095,
            4_294_967_295,
        ),
        // Four subkeys.
        (
            b"\x46\x21\x46\x54\x53\x23\x00\x00\x4b\x00\x00\x00\x02\x23\xff\xff\xff\xff\xff\xff\xef\xff\xff\xff\xff\xfd",
            &[
                b"\x46\x21",
                b"\x46",
                b"\x54",
                b"\x53\x23\x00\x00",
                b"\x4b\x00\x00\x00\x02",
            ],
            1,
            0,
            2,
        ),
    ] {
        let key = decode(rt.alloc(), bytes).ok().ok_or("refused")?;
        assert_eq!(rt; key.path.parts(), parts.len());
        for (i, part) in parts.iter().enumerate() {
            assert!(rt; i < key.path.parts());
            assert_eq!(rt; key.path.part(i), *part);
        }
        assert_eq!(rt; key.at.micros(), micros);
        assert_eq!(rt; key.at.logical(), logical);
        assert_eq!(rt; key.number, number);
        let mut again = Vec::new(rt.alloc());
        encode(&key.path, key.at, key.number, &mut again)?;
        assert_eq!(rt; again.as_slice(), bytes);
    }
    Ok(())
}

/// Each proper prefix of the key of `["a",-1;true]/#7/"b"` at 1000000.1 with write number 0. Where a prefix ends, what
/// is missing is the byte at its length, since none of its bytes is a fault: its hash is that of its columns, and each
/// tag may stand where it stands.
#[test]
fn every_proper_prefix(rt: HostRuntime) -> Result<(), Fail> {
    let bytes =
        b"\x47\x63\xc4\x53a\x00\x00\x49\x7f\xff\xff\xff\xff\xff\xff\xff\x21\x54\x21\x4b\x00\x00\x00\x07\x53b\x00\x00\x23\xff\xff\xff\xff\x0b\xdb\xff\xfe\xff\xff\xff\xff".as_slice();
    assert_eq!(rt; bytes.len(), 41);
    assert!(rt; decode(rt.alloc(), bytes).is_ok());
    // The first and the last length of prefixes that lack the same thing.
    for (first, last, missing) in [
        (0, 0, "the tag 47"),
        (1, 2, "the hash, at 1 and 2"),
        (3, 3, "the tag 53 of the first hashed column"),
        (4, 6, "its text, whose 00 00 ends at 6"),
        (7, 7, "the tag 49 of the second"),
        (8, 15, "its integer of eight bytes"),
        (16, 16, "the 21 behind the hashed columns"),
        (17, 17, "the tag 54 of the range column"),
        (18, 18, "the 21 behind it"),
        (19, 19, "the tag 4B of the first subkey, or a 23"),
        (20, 23, "its column number of four bytes"),
        (24, 24, "the tag 53 of the second subkey, or a 23"),
        (25, 27, "its text, whose 00 00 ends at 27"),
        (28, 28, "the tag 23, or that of a subkey"),
        (29, 36, "the time of eight bytes"),
        (37, 40, "the write number of four bytes"),
    ] {
        for len in first..last + 1 {
            let (prefix, _) = bytes.split_at_checked(len).ok_or(missing)?;
            assert_eq!(rt;
                decode(rt.alloc(), prefix).err(),
                Some(KeyRefusal::Truncated { at: len as u64 }),
                "{missing}"
            );
        }
    }
    Ok(())
}

#[test]
fn refusals_by_hand(rt: HostRuntime) {
    for (bytes, refusal) in [
        // A fifth subkey, or something else in its place.
        (
            b"\x46\x21\x46\x46\x46\x46\x46".as_slice(),
            KeyRefusal::TooMany { at: 6 },
        ),
        (
            b"\x46\x21\x46\x46\x46\x4b\x00\x00\x00\x02\x53",
            KeyRefusal::TooMany { at: 10 },
        ),
        (
            b"\x46\x21\x46\x46\x46\x46\x4b",
            KeyRefusal::TooMany { at: 6 },
        ),
        (
            b"\x46\x21\x46\x46\x46\x46\x21",
            KeyRefusal::BadTag { at: 6 },
        ),
        (b"\x46\x21\x46\x46\x46\x46", KeyRefusal::Truncated { at: 6 }),
        // A tag that begins neither a subkey nor a suffix.
        (b"\x46\x21\x21", KeyRefusal::BadTag { at: 2 }),
        (b"\x46\x21\x22", KeyRefusal::BadTag { at: 2 }),
        (b"\x46\x21\x24", KeyRefusal::BadTag { at: 2 }),
        (b"\x46\x21\x54\x47", KeyRefusal::BadTag { at: 3 }),
        // No document key before the suffix.
        (b"\x23", KeyRefusal::BadTag { at: 0 }),
        (b"\x46\x23", KeyRefusal::BadTag { at: 1 }),
        // Faults of a document key and of a subkey, whatever follows them.
        (
            b"\x47\x00\x00\x54\x21\x21\x24",
            KeyRefusal::BadHash { at: 1 },
        ),
        (b"\x46\x21\x53a\x00\x02\x24", KeyRefusal::BadText { at: 5 }),
        // A byte more than the suffix has.
        (
            b"\x46\x21\x23\xff\xff\xff\xff\x0b\xdb\xff\xff\xff\xff\xff\xff\x00",
            KeyRefusal::Spare { at: 15 },
        ),
        (
            b"\x46\x21\x23\xff\xff\xff\xff\x0b\xdb\xff\xff\xff\xff\xff\xff\x23\x00",
            KeyRefusal::Spare { at: 15 },
        ),
    ] {
        assert_eq!(rt; decode(rt.alloc(), bytes).err(), Some(refusal));
    }
}

/// A text of 257 bytes as the second subkey is refused at its tag, whatever follows it.
#[test]
fn long_subkey(rt: HostRuntime) -> Result<(), Fail> {
    let mut bytes = Vec::from_slice(rt.alloc(), b"\x46\x21\x54\x53")?;
    for _ in 0..257 {
        bytes.push(b'a')?;
    }
    bytes.extend_from_slice(b"\x00\x00\x24")?;
    assert_eq!(rt;
        decode(rt.alloc(), &bytes).err(),
        Some(KeyRefusal::TooLong { at: 3 })
    );
    Ok(())
}

/// Bytes of each kind side by side: values, a document key with a hash, a path with the suffix of a version, and what
/// a document key is refused for.
#[test]
fn bytes_of_each_kind(rt: HostRuntime) -> Result<(), Fail> {
    for (bytes, shown) in [
        (b"\x53a\x00\x01b\x00\x00".as_slice(), "\"a\\x00b\""),
        (
            b"\x49\x00\x00\x00\x00\x00\x00\x00\x00",
            "-9223372036854775808",
        ),
        (
            b"\x49\xff\xff\xff\xff\xff\xff\xff\xff",
            "9223372036854775807",
        ),
        (b"\x49\x7f\xff\xff\xff\xff\xff\xff\xff", "-1"),
    ] {
        let value = doc_value::decode(rt.alloc(), bytes).ok().ok_or(shown)?;
        let mut text = Vec::new(rt.alloc());
        value.text(&mut text)?;
        assert_eq!(rt; text.as_slice(), shown.as_bytes());
    }
    let hashed = doc_key::decode(rt.alloc(), b"\x47\x19\x29\x54\x21\x21")
        .ok()
        .ok_or("refused")?;
    let mut text = Vec::new(rt.alloc());
    hashed.text(&mut text)?;
    assert_eq!(rt; text.as_slice(), b"[true;]".as_slice());
    let path = path_of(&rt, b"\x53a\x00\x00\x21", &[b"\x4b\x00\x00\x00\x01"])?;
    let mut text = Vec::new(rt.alloc());
    path_text(&path, &mut text)?;
    assert_eq!(rt; text.as_slice(), b"[;\"a\"]/#1".as_slice());
    let mut bytes = Vec::new(rt.alloc());
    encode(&path, HybridTime::of(1_000_000, 1), 0, &mut bytes)?;
    assert_eq!(rt;
        bytes.as_slice(),
        b"\x53a\x00\x00\x21\x4b\x00\x00\x00\x01\x23\xff\xff\xff\xff\x0b\xdb\xff\xfe\xff\xff\xff\xff".as_slice()
    );
    for (bytes, refusal) in [
        (b"\x53a\x00\x00".as_slice(), KeyRefusal::Truncated { at: 4 }),
        (b"\x53a\x00\x02", KeyRefusal::BadText { at: 3 }),
        (b"\x47\x19\x29\x54\x21\x21\x00", KeyRefusal::Spare { at: 6 }),
        (b"\x47\x00\x00\x54\x21\x21", KeyRefusal::BadHash { at: 1 }),
        (b"\x4b", KeyRefusal::BadTag { at: 0 }),
    ] {
        assert_eq!(rt; doc_key::decode(rt.alloc(), bytes).err(), Some(refusal));
    }
    Ok(())
}
