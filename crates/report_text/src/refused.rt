//! Refusals as text.
ghost use Rattle.std.specs.Prelude.{◌≡◌, IfOk, string_bytes};
ghost use Rattle.report_text.specs.Answer.{refusal_text};

use crate::names::{actor_text, id_of, time_text};
use doc_path::Path;
use docdb_base::Memory;
use hybrid_time::HybridTime;
use std::alloc::Global;
use sub_doc_key::path_text;
use txn_types::{Actor, ToldRefusal, TxnId};

/// The text of a refusal.
pub(crate) fn refused(alloc: Global, refusal: &ToldRefusal) -> Result<String, Memory>
    ensures { IfOk result (λ text. string_bytes text ≡ refusal_text refusal.now) }
{
    match refusal {
        ToldRefusal::Conflict { other } => conflict(alloc, *other),
        ToldRefusal::Overlap { at } => overlap(alloc, *at),
        ToldRefusal::Aborted { by } => aborted(alloc, *by),
        ToldRefusal::Restart { at, path } => restart(alloc, *at, path),
        ToldRefusal::LeaseHeld { actor, until } => lease_held(alloc, *actor, *until),
        ToldRefusal::ClockFull { actor, at } => clock_full(alloc, *actor, *at),
        ToldRefusal::ClockRange { actor, reading } => clock_range(alloc, *actor, *reading),
        ToldRefusal::LogFault { actor } => log_fault(alloc, *actor),
        ToldRefusal::Down { actor, since } => down(alloc, *actor, *since),
        ToldRefusal::NoTxn => String::from_str(alloc, "refused no-transaction"),
        ToldRefusal::TxnOpen => String::from_str(alloc, "refused transaction-open"),
        ToldRefusal::InDoubt => String::from_str(alloc, "refused in-doubt"),
        ToldRefusal::Memory => String::from_str(alloc, "refused memory"),
    }
}

fn conflict(alloc: Global, other: TxnId) -> Result<String, Memory>
    ensures { IfOk result (λ text. string_bytes text ≡ refusal_text (ToldRefusal.Conflict other)) }
{
    let id = id_of(other);
    format!(in alloc; "refused conflict {id}")
}

fn overlap(alloc: Global, at: HybridTime) -> Result<String, Memory>
    ensures { IfOk result (λ text. string_bytes text ≡ refusal_text (ToldRefusal.Overlap at)) }
{
    let (micros, logical) = (at.micros(), at.logical());
    format!(in alloc; "refused overlap {micros}.{logical}")
}

fn aborted(alloc: Global, by: TxnId) -> Result<String, Memory>
    ensures { IfOk result (λ text. string_bytes text ≡ refusal_text (ToldRefusal.Aborted by)) }
{
    let id = id_of(by);
    format!(in alloc; "refused aborted {id}")
}

fn restart(alloc: Global, at: HybridTime, path: &Path) -> Result<String, Memory>
    ensures { IfOk result (λ text. string_bytes text ≡ refusal_text (ToldRefusal.Restart at path.now)) }
{
    let time = time_text(alloc, at)?;
    let head = format!(in alloc; "refused restart {time} ")?;
    let mut text = head.into_bytes();
    path_text(path, &mut text)?;
    Ok(String::from_utf8(text).unwrap())
}

fn lease_held(alloc: Global, actor: Actor, until: u64) -> Result<String, Memory>
    ensures { IfOk result (λ text. string_bytes text ≡ refusal_text (ToldRefusal.LeaseHeld actor until)) }
{
    let actor = actor_text(alloc, actor)?;
    format!(in alloc; "refused lease {actor} {until}")
}

fn clock_full(alloc: Global, actor: Actor, at: HybridTime) -> Result<String, Memory>
    ensures { IfOk result (λ text. string_bytes text ≡ refusal_text (ToldRefusal.ClockFull actor at)) }
{
    let (actor, micros, logical) = (actor_text(alloc, actor)?, at.micros(), at.logical());
    format!(in alloc; "refused clock-full {actor} {micros}.{logical}")
}

fn clock_range(alloc: Global, actor: Actor, reading: u64) -> Result<String, Memory>
    ensures { IfOk result (λ text. string_bytes text ≡ refusal_text (ToldRefusal.ClockRange actor reading)) }
{
    let actor = actor_text(alloc, actor)?;
    format!(in alloc; "refused clock-range {actor} {reading}")
}

fn log_fault(alloc: Global, actor: Actor) -> Result<String, Memory>
    ensures { IfOk result (λ text. string_bytes text ≡ refusal_text (ToldRefusal.LogFault actor)) }
{
    let actor = actor_text(alloc, actor)?;
    format!(in alloc; "refused log {actor}")
}

fn down(alloc: Global, actor: Actor, since: u64) -> Result<String, Memory>
    ensures { IfOk result (λ text. string_bytes text ≡ refusal_text (ToldRefusal.Down actor since)) }
{
    let actor = actor_text(alloc, actor)?;
    format!(in alloc; "refused down {actor} {since}")
}
