//! Paths worked by hand: a text stands for the path of its parts between slashes.
use crate::{Path, PathRefusal};
use docdb_base::TryCopy;
use std::alloc::Global;
use std::cmp::Ordering;
use std::test::Fail;

fn path(alloc: Global, text: &str) -> Result<Path, Fail> {
    let mut parts = text.split('/');
    let first = parts.next().ok_or("no part")?;
    let mut path = Path::of(alloc, first.as_bytes())?;
    for part in parts {
        path.push(part.as_bytes())?;
    }
    Ok(path)
}

#[test]
fn compares(rt: HostRuntime) -> Result<(), Fail> {
    let rows = [
        ("k", "k", true, true, Ordering::Equal),
        ("k", "k/a", true, false, Ordering::Less),
        ("k/a/b", "k/a", false, true, Ordering::Greater),
        ("k/a", "k/b", false, false, Ordering::Less),
        ("k/b", "k/aa", false, false, Ordering::Greater),
        ("b", "aa", false, false, Ordering::Greater),
        ("a", "aa", false, false, Ordering::Less),
        ("a/z", "aa", false, false, Ordering::Less),
        ("k/", "k", false, true, Ordering::Greater),
        ("k/", "k/a", false, false, Ordering::Less),
        ("k/1/2/3", "k/1/2/3/4", true, false, Ordering::Less),
        ("k/1/2/3/4", "k/1/2/3/4", true, true, Ordering::Equal),
        ("k/1/2/3/5", "k/1/2/3/4", false, false, Ordering::Greater),
    ];
    for (own, other, begins, ends, order) in rows {
        let left = path(rt.alloc(), own)?;
        let right = path(rt.alloc(), other)?;
        assert_eq!(rt; left.is_prefix(&right), begins, "{own} {other}");
        assert_eq!(rt; right.is_prefix(&left), ends, "{other} {own}");
        assert_eq!(rt; left.related(&right), begins || ends, "{own} {other}");
        assert_eq!(rt; right.related(&left), begins || ends, "{other} {own}");
        assert_eq!(rt; left.cmp(&right), order, "{own} {other}");
        assert_eq!(rt; right.cmp(&left), order.reverse(), "{other} {own}");
    }
    Ok(())
}

#[test]
fn lends_its_parts(rt: HostRuntime) -> Result<(), Fail> {
    let whole = path(rt.alloc(), "k/1/22")?;
    let again = Path::of_parts(rt.alloc(), whole.as_parts())?;
    assert_eq!(rt; again.cmp(&whole), Ordering::Equal);
    let parts = again.into_parts();
    assert_eq!(rt; parts.len(), 3);
    assert_eq!(rt; parts[2].items(), b"22".as_slice());
    assert_eq!(rt; parts.as_slice() == whole.as_parts().as_slice(), true);
    assert_eq!(rt; parts[0].cmp(&parts[1]), Ordering::Greater);
    Ok(())
}

#[test]
fn refuses_a_sixth_part(rt: HostRuntime) -> Result<(), Fail> {
    let mut full = path(rt.alloc(), "k/1/2/3/44")?;
    assert_eq!(rt; full.push(b"5"), Err(PathRefusal::TooMany));
    let copy = full.try_copy(rt.alloc())?;
    for kept in [full, copy] {
        assert_eq!(rt; kept.parts(), 5);
        assert_eq!(rt; kept.part(0), b"k".as_slice());
        assert_eq!(rt; kept.part(4), b"44".as_slice());
    }
    Ok(())
}
