//! What fates tell of commit times.
ghost use Rattle.std.specs.Prelude.{◌≡◌, ℕ, max, IfOk};
ghost use Rattle.std.specs.Ordering.{nat_cmp};
ghost use Rattle.std.specs.BTreeMap.{get};
ghost use Rattle.txn_types.specs.Lists.{or_zero};
ghost use Rattle.txn_types.specs.Tablet.{first_fate as fate_in, commit_time as time_in, greatest_fate};

use conflict_matrix::{FirstFates, commit_time};
use docdb_base::Memory;
use hybrid_time::HybridTime;
use std::alloc::Global;
use std::collections::BTreeMap;
use txn_types::{Fate, FateOf, Fates, TxnId};

/// The first fate of each transaction that has one.
pub(crate) fn first_fates(alloc: Global, fates: &[FateOf]) -> Result<BTreeMap<TxnId, Fate>, Memory>
    ensures { IfOk result (λ firsts. (x : ℕ) → get nat_cmp firsts x ≡ fate_in fates.now x) }
{
    let mut firsts = BTreeMap::new(alloc);
    for of in fates {
        if !firsts.contains_key(&of.txn) {
            firsts.insert(of.txn, of.fate)?;
        }
    }
    Ok(firsts)
}

/// The commit time that the first fate of a transaction names, which is found here.
pub(crate) fn commit_time_in(firsts: &BTreeMap<TxnId, Fate>, txn: TxnId) -> Option<HybridTime>
    ensures { result ≡ time_in (get nat_cmp firsts.now txn) }
{
    match firsts.get(&txn) {
        Some(fate) => commit_time(*fate),
        None => None,
    }
}

/// The time above which a single write is committed: the greatest of `seen` and of all commit times that first fates name.
/// It takes no memory.
pub fn single_floor(seen: HybridTime, fates: &Fates) -> HybridTime
    ensures { result ≡ max seen (greatest_fate fates.now fates.now) }
{
    floor_of(seen, fates.items())
}

fn floor_of(seen: HybridTime, fates: &[FateOf]) -> HybridTime
    ensures { result ≡ max seen (greatest_fate fates.now fates.now) }
{
    let mut firsts = FirstFates::of(fates, true);
    let mut floor = seen;
    for of in fates {
        floor = raised(floor, firsts.time_of(of.txn));
    }
    floor
}

// The greater of a time and of another one, where there is one.
fn raised(floor: HybridTime, at: Option<HybridTime>) -> HybridTime
    ensures { result ≡ max floor (or_zero at) }
{
    match at {
        Some(at) => floor.max(at),
        None => floor,
    }
}
