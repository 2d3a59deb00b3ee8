//! The tablets and the paths of places.
ghost use Rattle.std.specs.Prelude.{◌≡◌, ◌≤◌, ◌++◌, ◌∷◌, take, drop, length, IfOk, OnOk, OnErr, MatchResult};
ghost use Rattle.txn_types.specs.Lists.{with_number};
ghost use Rattle.txn_types.specs.ReadProgram.{tablets_of as tablets_at, paths_on as paths_at, limit_of as limit_in, fixed, with_limit};

use docdb_base::{Memory, Seq, TryCopy};
use hybrid_time::HybridTime;
use std::alloc::Global;
use txn_types::{Limits, Paths, Place, TabletLimit, Tablets};

/// Copies of these items.
pub(crate) fn copies<T: TryCopy + Drop>(alloc: Global, items: &[T]) -> Result<Seq<T>, Memory>
    ensures { IfOk result (λ copies. copies ≡ items.now) }
{
    let mut copies = Seq::new(alloc);
    for item in items {
        copies.push(item.try_copy(alloc)?)?;
    }
    Ok(copies)
}

/// The tablets of these places, by rising number.
pub(crate) fn tablets_of(alloc: Global, places: &[Place]) -> Result<Tablets, Memory>
    ensures tablets { IfOk result (λ tablets. tablets ≡ tablets_at places.now) }
    ensures few { IfOk result (λ tablets. length tablets ≤ length places.now) }
{
    let mut tablets = Vec::new(alloc);
    for i in (0..places.len()).rev() {
        let tablet = places[i].tablet;
        if let Err(at) = place_of(&tablets, tablet) {
            tablets.insert(at, tablet)?;
        }
    }
    Ok(Seq::of(tablets))
}

// Where a number is, or else where it goes.
fn place_of(numbers: &[u32], number: u32) -> Result<usize, usize>
    ensures { MatchResult result (λ _. with_number number numbers.now ≡ numbers.now) (λ at. (at ≤ length numbers.now) × (with_number number numbers.now ≡ take at numbers.now ++ number ∷ drop at numbers.now)) }
{
    for (i, other) in numbers.iter().enumerate() {
        if number < *other {
            return Err(i);
        }
        if number == *other {
            return Ok(i);
        }
    }
    Err(numbers.len())
}

/// The paths on this tablet among these places, in their order.
pub(crate) fn paths_on(alloc: Global, tablet: u32, places: &[Place]) -> Result<Paths, Memory>
    ensures { IfOk result (λ paths. paths ≡ paths_at tablet places.now) }
{
    let mut paths = Seq::new(alloc);
    for place in places {
        if place.tablet == tablet {
            paths.push(place.path.try_copy(alloc)?)?;
        }
    }
    Ok(paths)
}

/// The local limit that is fixed at this tablet. There is at most one for each tablet of a cluster.
pub(crate) fn limit_of(tablet: u32, limits: &[TabletLimit]) -> Option<HybridTime>
    ensures { result ≡ limit_in tablet limits.now }
{
    for of in limits {
        if of.tablet == tablet {
            return Some(of.limit);
        }
    }
    None
}

/// The local limit of this tablet: the one that is fixed, or else this one, which is fixed then. If memory runs out, the
/// limits are as before.
pub(crate) fn fix_limit(
    limits: &mut Limits,
    tablet: u32,
    limit: HybridTime,
) -> Result<HybridTime, Memory>
    ensures value { IfOk result (λ value. value ≡ fixed tablet limit limits.old) }
    ensures limits { OnOk result (limits.new ≡ with_limit tablet limit limits.old) }
    ensures memory { OnErr result (limits.new ≡ limits.old) }
{
    match limit_of(tablet, limits.items()) {
        Some(known) => Ok(known),
        None => {
            limits.push(TabletLimit { tablet, limit })?;
            Ok(limit)
        }
    }
}
