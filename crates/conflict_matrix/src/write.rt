//! The intents of a write, and what it is answered.
ghost use Rattle.std.specs.Prelude.{◌≡◌, ◌++◌, ◌∷◌, [], true, IfOk, OnOk};
ghost use Rattle.txn_types.specs.Tablet.{is_open as stands_open};
ghost use Rattle.conflict_matrix.specs.Firsts.{OthersRise};
ghost use Rattle.conflict_matrix.specs.Conflict.{intents_of as intents_on};
ghost use Rattle.conflict_matrix.specs.Decide.{least_open as least_in, overlap, decision};
ghost use Rattle.conflict_matrix.specs.Steps.{lesser as lesser_of, with_time as time_with};

use crate::first_fates::FirstFates;
use crate::intent_at::IntentAt;
use crate::kind::Kind;
use crate::write_decision::WriteDecision;
use doc_path::{Path, PathRefusal};
use docdb_base::{Memory, TryCopy};
use hybrid_time::HybridTime;
use std::alloc::{AllocError, Global};
use txn_types::{Fate, FateOf, Fates, Found, Founds, TxnId};

/// The intents that a snapshot write takes: weak ones on each path that its own lies beneath, the shortest first, and
/// strong ones on its own. On each path the read comes before the write.
pub fn intents_of(alloc: Global, path: &Path) -> Result<Vec<IntentAt>, Memory>
    ensures { IfOk result (λ intents. intents.items ≡ intents_on path.now) }
{
    let mut intents = Vec::new(alloc);
    let parts = path.parts();
    let mut above = Path::of(alloc, path.part(0))?;
    for i in 1..parts {
        push_intent(&mut intents, alloc, &above, Kind::WeakRead)?;
        push_intent(&mut intents, alloc, &above, Kind::WeakWrite)?;
        match above.push(path.part(i)) {
            Ok(()) => {}
            Err(PathRefusal::Memory) => return Err(AllocError),
            Err(PathRefusal::TooMany) => unreachable!(),
        }
    }
    push_intent(&mut intents, alloc, path, Kind::StrongRead)?;
    push_intent(&mut intents, alloc, path, Kind::StrongWrite)?;
    Ok(intents)
}

fn push_intent(
    intents: &mut Vec<IntentAt>,
    alloc: Global,
    path: &Path,
    kind: Kind,
) -> Result<(), Memory>
    ensures { OnOk result (intents.new.items ≡ intents.old.items ++ (record { path = path.now; kind = kind }) ∷ []) }
{
    let path = path.try_copy(alloc)?;
    intents
        .push(IntentAt { path, kind })
        .map_err(AllocError::from)
}

/// What a write is answered. `others` are the other transactions that have a related provisional write, `fates` what is
/// known of them, of which the first of each transaction counts, and `newest` the commit time of the newest related
/// version, which is passed over where it is not above the read time. A write without a read time never overlaps. It takes
/// no memory.
pub fn decide(
    others: &Founds,
    fates: &Fates,
    read: Option<HybridTime>,
    newest: Option<HybridTime>,
) -> WriteDecision
    ensures { result ≡ decision (least_in others.now fates.now) (overlap read newest others.now fates.now) }
{
    if let Some(other) = least_open(others.items(), fates.items()) {
        return WriteDecision::Conflict { other };
    }
    match read {
        None => WriteDecision::Go,
        Some(read) => match overlap_above(read, newest, others.items(), fates.items()) {
            Some(at) => WriteDecision::Overlap { at },
            None => WriteDecision::Go,
        },
    }
}

// Whether a transaction of this fate has none, or the fate Pending.
fn is_open(fate: Option<Fate>) -> bool
    ensures { result ≡ stands_open fate }
{
    matches!(fate, None | Some(Fate::Pending))
}

// Whether the ids of these transactions do not fall.
fn rise(others: &[Found]) -> bool
    ensures { result ≡ true → OthersRise others.now }
{
    others.is_sorted_by_key(|other| other.txn)
}

fn least_open(others: &[Found], fates: &[FateOf]) -> Option<TxnId>
    ensures { result ≡ least_in others.now fates.now }
{
    let mut firsts = FirstFates::of(fates, rise(others));
    let mut least: Option<TxnId> = None;
    for other in others {
        if is_open(firsts.fate_of(other.txn)) {
            least = lesser(other.txn, least);
        }
    }
    least
}

fn overlap_above(
    read: HybridTime,
    newest: Option<HybridTime>,
    others: &[Found],
    fates: &[FateOf],
) -> Option<HybridTime>
    ensures { result ≡ overlap (Some read) newest others.now fates.now }
{
    let mut firsts = FirstFates::of(fates, rise(others));
    let mut greatest = with_time(read, newest, None);
    for other in others {
        greatest = with_time(read, firsts.time_of(other.txn), greatest);
    }
    greatest
}

// The lesser of an id and the least so far.
fn lesser(txn: TxnId, least: Option<TxnId>) -> Option<TxnId>
    ensures { result ≡ lesser_of txn least }
{
    match least {
        Some(other) if other < txn => Some(other),
        _ => Some(txn),
    }
}

// The greater of a time, where there is one above the read time, and the greatest so far.
fn with_time(
    read: HybridTime,
    at: Option<HybridTime>,
    greatest: Option<HybridTime>,
) -> Option<HybridTime>
    ensures { result ≡ time_with read at greatest }
{
    match at {
        Some(at) if read < at => match greatest {
            Some(other) if at < other => Some(other),
            _ => Some(at),
        },
        _ => greatest,
    }
}
