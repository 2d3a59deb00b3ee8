//! Versions worked by hand. A path is spelled as its parts between slashes, and a time is in microseconds.
use doc_path::Path;
use docdb_base::Seq;
use hybrid_time::HybridTime;
use regular_records::{MapVersions, Versions};
use std::alloc::Global;
use std::test::Fail;
use txn_types::{Bytes, Op, Paths, Version, Window};
use value_cases::VALUE_CASES;

/// A version: its path, its commit time, its write number, the time at which it was provisional, and its value, or `-`
/// for a delete.
type Line = (&'static str, u32, u32, u32, &'static str);

fn path(alloc: Global, text: &str) -> Result<Path, Fail> {
    let mut parts = text.split('/');
    let first = parts.next().ok_or("no part")?;
    let mut path = Path::of(alloc, first.as_bytes())?;
    for part in parts {
        path.push(part.as_bytes())?;
    }
    Ok(path)
}

fn push_path(text: &mut String, path: &Path) -> Result<(), Fail> {
    for i in 0..path.parts() {
        if i > 0 {
            text.push('/')?;
        }
        for byte in path.part(i) {
            text.push(char::from(*byte))?;
        }
    }
    Ok(())
}

fn push_value(text: &mut String, value: Option<Bytes>) -> Result<(), Fail> {
    match value {
        None => text.push('-')?,
        Some(bytes) => {
            for byte in bytes.items() {
                text.push(char::from(*byte))?;
            }
        }
    }
    Ok(())
}

fn time(micros: u32) -> HybridTime {
    HybridTime::of(u64::from(micros), 0)
}

fn version(alloc: Global, line: Line) -> Result<Version, Fail> {
    let (place, at, number, wrote, value) = line;
    let op = match value {
        "-" => Op::Delete,
        value => Op::Put(Seq::of(value.as_bytes().to_vec(alloc)?)),
    };
    Ok(Version {
        path: path(alloc, place)?,
        at: time(at),
        wrote: time(wrote),
        number,
        op,
    })
}

fn versions(alloc: Global, lines: &[Line]) -> Result<MapVersions, Fail> {
    let mut versions = MapVersions::new(alloc);
    let mut list = Vec::new(alloc);
    for line in lines {
        list.push(version(alloc, *line)?)?;
    }
    versions.add_all(list)?;
    Ok(versions)
}

/// The versions of one of the cases, whose words are `PATH@COMMIT.NUMBER=VALUE`.
fn case_versions(alloc: Global, text: &'static str) -> Result<MapVersions, Fail> {
    let mut versions = MapVersions::new(alloc);
    let mut list = Vec::new(alloc);
    for word in text.split_whitespace() {
        let (place, rest) = word.split_once('@').ok_or("no time")?;
        let (order, value) = rest.split_once('=').ok_or("no value")?;
        let (at, number) = order.split_once('.').ok_or("no number")?;
        let (at, number) = (small(at)?, small(number)?);
        list.push(version(alloc, (place, at, number, at, value))?)?;
    }
    versions.add_all(list)?;
    Ok(versions)
}

fn small(text: &str) -> Result<u32, Fail> {
    Ok(text.parse().map_err(|_| "no number")?)
}

fn value_told(versions: &MapVersions, alloc: Global, place: &Path, t: u32) -> Result<String, Fail> {
    let mut told = String::new(alloc);
    push_value(&mut told, versions.get_at(place, time(t))?)?;
    Ok(told)
}

fn rows_told(versions: &MapVersions, alloc: Global, place: &Path, t: u32) -> Result<String, Fail> {
    let mut told = String::new(alloc);
    for row in versions.scan_at(place, time(t))?.into_items() {
        if told.len() > 0 {
            told.push(' ')?;
        }
        push_path(&mut told, &row.path)?;
        told.push('=')?;
        push_value(&mut told, row.value)?;
    }
    Ok(told)
}

#[test]
fn gets_and_scans(rt: HostRuntime) -> Result<(), Fail> {
    for (text, place, micros, value, rows) in VALUE_CASES {
        let versions = case_versions(rt.alloc(), text)?;
        let place = path(rt.alloc(), place)?;
        let t = u32::try_from(micros).map_err(|_| "too late")?;
        let told = value_told(&versions, rt.alloc(), &place, t)?;
        assert_eq!(rt; told.as_str(), value);
        let told = rows_told(&versions, rt.alloc(), &place, t)?;
        assert_eq!(rt; told.as_str(), rows);
    }
    Ok(())
}

const DECIDING: [Line; 6] = [
    ("k", 10, 3, 10, "a"),
    ("k/a", 20, 1, 20, "b"),
    ("l", 10, 3, 10, "a"),
    ("l/a", 10, 4, 10, "b"),
    ("m", 10, 4, 10, "-"),
    ("m/a", 10, 3, 10, "b"),
];

/// A path and a time, and what decides: its commit time, its number, and how many parts its path has.
const DECIDED: [(&str, u32, Option<(u32, u32, usize)>); 7] = [
    ("k/a", 20, Some((20, 1, 2))),
    ("k/a", 19, Some((10, 3, 1))),
    ("k", 30, Some((10, 3, 1))),
    ("k/b", 30, Some((10, 3, 1))),
    ("k", 9, None),
    ("l/a/x", 10, Some((10, 4, 2))),
    ("m/a/x", 10, Some((10, 4, 1))),
];

#[test]
fn tells_what_decides(rt: HostRuntime) -> Result<(), Fail> {
    let versions = versions(rt.alloc(), &DECIDING)?;
    for (place, t, wanted) in DECIDED {
        let told = match versions.decided_at(&path(rt.alloc(), place)?, time(t)) {
            None => None,
            Some(found) => Some((found.at, found.number, found.parts)),
        };
        let wanted = match wanted {
            None => None,
            Some((at, number, parts)) => Some((time(at), number, parts)),
        };
        assert_eq!(rt; told, wanted);
    }
    Ok(())
}

const RELATED: [Line; 14] = [
    ("k", 10, 0, 10, "a"),
    ("k/a", 20, 0, 20, "b"),
    ("k/b", 30, 0, 30, "c"),
    ("l", 40, 0, 40, "a"),
    ("l/a", 20, 0, 20, "b"),
    ("l/b", 30, 0, 30, "c"),
    ("m", 40, 0, 40, "a"),
    ("m", 50, 0, 50, "-"),
    ("ma", 60, 0, 60, "c"),
    ("n", 40, 0, 40, "a"),
    ("oa", 60, 0, 60, "c"),
    // Deep beneath, and an older version after a newer one.
    ("p/a/b", 70, 0, 70, "a"),
    ("q/a", 50, 0, 50, "a"),
    ("q/a", 45, 0, 45, "b"),
];

/// A path and a time, and the greatest commit time above it on a related path.
const NEWEST_RELATED: [(&str, u32, Option<u32>); 13] = [
    ("k/a", 5, Some(20)),
    ("k/a", 20, None),
    ("k", 20, Some(30)),
    ("k", 30, None),
    ("l/a/x", 5, Some(40)),
    ("l/a", 40, None),
    ("m", 39, Some(50)),
    ("o", 0, None),
    ("p", 69, Some(70)),
    ("p/a", 70, None),
    ("p/b", 0, None),
    ("p/a/b/c", 69, Some(70)),
    ("q", 48, Some(50)),
];

#[test]
fn finds_the_newest_related(rt: HostRuntime) -> Result<(), Fail> {
    let versions = versions(rt.alloc(), &RELATED)?;
    for (place, t, wanted) in NEWEST_RELATED {
        let told = versions.newest_related_above(&path(rt.alloc(), place)?, time(t));
        let wanted = match wanted {
            None => None,
            Some(at) => Some(time(at)),
        };
        assert_eq!(rt; told, wanted);
    }
    Ok(())
}

const MET: [Line; 19] = [
    ("k", 10, 0, 10, "a"),
    ("l", 15, 0, 10, "a"),
    ("m", 15, 0, 12, "a"),
    ("m", 12, 0, 8, "b"),
    ("n/b", 10, 0, 10, "a"),
    ("n/a", 10, 0, 10, "b"),
    ("n/c", 9, 0, 9, "c"),
    ("o/b", 10, 0, 10, "a"),
    ("o", 10, 0, 10, "b"),
    ("r", 10, 0, 10, "b"),
    ("s", 10, 0, 10, "a"),
    ("t", 10, 0, 10, "b"),
    ("u", 11, 0, 11, "a"),
    ("w/a", 30, 0, 30, "a"),
    ("w/b", 12, 0, 12, "b"),
    ("x/a/b", 10, 0, 10, "a"),
    ("y/a", 15, 0, 12, "a"),
    ("y/b", 9, 0, 9, "a"),
    ("z/a", 30, 0, 30, "a"),
];

/// The paths asked, the read time, the end of the window and the local limit; and the commit time that is met, with its
/// path.
const WINDOWS: [(&str, u32, u32, u32, &str); 19] = [
    ("k", 5, 20, 20, "10 k"),
    ("k", 10, 20, 20, "-"),
    ("k", 5, 9, 20, "-"),
    ("k", 5, 10, 20, "10 k"),
    // The local limit is for the provisional time, and not for the commit time.
    ("l", 5, 20, 9, "-"),
    ("l", 5, 20, 10, "15 l"),
    ("m", 5, 20, 10, "12 m"),
    // The greatest time, and with it the least path.
    ("n", 5, 20, 20, "10 n/a"),
    ("o/b", 5, 20, 20, "10 o"),
    ("s r", 5, 20, 20, "10 r"),
    ("t u", 5, 20, 20, "11 u"),
    ("v", 5, 20, 20, "-"),
    // Beneath: in the window, at the read time, behind the end of the window, and written too late.
    ("w", 5, 20, 20, "12 w/b"),
    ("x", 9, 20, 20, "10 x/a/b"),
    ("x", 10, 20, 20, "-"),
    ("x/a/b/c", 9, 20, 20, "10 x/a/b"),
    ("y", 5, 20, 10, "9 y/b"),
    ("y", 9, 20, 10, "-"),
    ("z", 5, 20, 20, "-"),
];

fn met_told(
    versions: &MapVersions,
    alloc: Global,
    places: &str,
    t: u32,
    window: &Window,
) -> Result<String, Fail> {
    let mut asked = Paths::new(alloc);
    for place in places.split_whitespace() {
        asked.push(path(alloc, place)?)?;
    }
    let Some(met) = versions.window(&asked, time(t), window)? else {
        return Ok(String::from_str(alloc, "-")?);
    };
    let mut told = format!(in alloc; "{} ", met.at.micros())?;
    push_path(&mut told, &met.path)?;
    Ok(told)
}

#[test]
fn meets_in_a_window(rt: HostRuntime) -> Result<(), Fail> {
    let versions = versions(rt.alloc(), &MET)?;
    for (places, t, g, limit, wanted) in WINDOWS {
        let window = Window {
            g: time(g),
            limit: time(limit),
        };
        let told = met_told(&versions, rt.alloc(), places, t, &window)?;
        assert_eq!(rt; told.as_str(), wanted);
    }
    Ok(())
}

const TIED: [Line; 3] = [
    ("k", 10, 0, 10, "a"),
    ("k", 10, 1, 10, "b"),
    ("k", 10, 1, 10, "c"),
];

#[test]
fn takes_the_place_of_a_tie(rt: HostRuntime) -> Result<(), Fail> {
    let place = path(rt.alloc(), "k")?;
    let mut versions = versions(rt.alloc(), &TIED)?;
    let told = value_told(&versions, rt.alloc(), &place, 10)?;
    assert_eq!(rt; told.as_str(), "c");
    let mut list = Vec::new(rt.alloc());
    list.push(version(rt.alloc(), ("k", 10, 1, 10, "d"))?)?;
    versions.add_all(list)?;
    let told = value_told(&versions, rt.alloc(), &place, 10)?;
    assert_eq!(rt; told.as_str(), "d");
    let empty = versions.empty_like()?;
    assert_eq!(rt; empty.get_at(&place, time(10))?.is_none(), true);
    Ok(())
}
