//! The ranges of the paths that are related to a path.
ghost use Rattle.std.specs.Prelude.{◌≡◌, ◌<◌, ◌≤◌, ◌∷◌, ◌++◌, [], length, IfOk, OnOk};
ghost use Rattle.doc_path.specs.Path.{Parts};
ghost use Rattle.intent_records.specs.Search.{near, next_after, in_any};

use crate::path_range::PathRange;
use doc_path::{Path, PathRefusal};
use docdb_base::{Memory, TryCopy};
use std::alloc::{AllocError, Global};

/// The ranges of the paths that are related to `path`: one for each path that it lies beneath, and one for itself and those
/// that lie beneath it.
pub fn related_ranges(alloc: Global, path: &Path) -> Result<Vec<PathRange>, Memory>
    ensures related { IfOk result (λ ranges. (q : Parts) → in_any ranges.items q ≡ near path.now q) }
    ensures parts { 1 ≤ length path.now }
{
    let mut ranges = Vec::new(alloc);
    let parts = path.parts();
    let mut above = Path::of(alloc, path.part(0))?;
    for i in 1..parts {
        let first = above.try_copy(alloc)?;
        let end = next_beneath(alloc, &above)?;
        ranges.push(PathRange { first, end })?;
        push(&mut above, path.part(i))?;
    }
    let first = path.try_copy(alloc)?;
    let end = first_after(alloc, path)?;
    ranges.push(PathRange { first, end })?;
    Ok(ranges)
}

// The first path after this one.
fn next_beneath(alloc: Global, path: &Path) -> Result<Path, Memory>
    requires { length path.now < 5 }
    ensures { IfOk result (λ next. next ≡ path.now ++ [] ∷ []) }
{
    let mut next = path.try_copy(alloc)?;
    push(&mut next, &[])?;
    Ok(next)
}

// The first path after all that begin with this one.
fn first_after(alloc: Global, path: &Path) -> Result<Path, Memory>
    ensures { IfOk result (λ after. after ≡ next_after path.now) }
{
    let last = path.parts() - 1;
    let mut part = path.part(last).to_vec(alloc)?;
    part.push(0)?;
    if last == 0 {
        return Path::of(alloc, &part);
    }
    let mut after = Path::of(alloc, path.part(0))?;
    for i in 1..last {
        push(&mut after, path.part(i))?;
    }
    push(&mut after, &part)?;
    Ok(after)
}

// Adds a part to a path that has room for it.
fn push(path: &mut Path, part: &[u8]) -> Result<(), Memory>
    requires { length path.old < 5 }
    ensures { OnOk result (path.new ≡ path.old ++ part.now ∷ []) }
{
    match path.push(part) {
        Ok(()) => Ok(()),
        Err(PathRefusal::Memory) => Err(AllocError),
        Err(PathRefusal::TooMany) => unreachable!(),
    }
}
