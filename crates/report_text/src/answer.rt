//! What is told of a command, as text.
ghost use Rattle.std.specs.Prelude.{◌≡◌, IfOk, string_bytes};
ghost use Rattle.report_text.specs.Answer.{answer_text, kept_text, row_text};

use crate::names::{id_of, time_text};
use crate::refused::refused;
use crate::rows::put_row;
use docdb_base::Memory;
use hybrid_time::HybridTime;
use std::alloc::Global;
use txn_types::{Row, Told, TxnId};

/// The text of what is told.
pub(crate) fn answer(alloc: Global, told: &Told) -> Result<String, Memory>
    ensures { IfOk result (λ text. string_bytes text ≡ answer_text told.now) }
{
    match told {
        Told::Began { txn, at } => began(alloc, *txn, *at),
        Told::Written { at } => written(alloc, *at),
        Told::Committed { txn, at } => committed(alloc, *txn, *at),
        Told::Ended { txn } => ended(alloc, *txn),
        Told::Values { at, restarts, rows } => values(alloc, *at, *restarts, rows.items()),
        Told::Restarted { kept } => restarted(alloc, *kept),
        Told::Passed {
            applied,
            cleaned,
            left,
        } => passed(alloc, *applied, *cleaned, *left),
        Told::Set => String::from_str(alloc, "set"),
        Told::Refused(refusal) => refused(alloc, refusal),
    }
}

fn began(alloc: Global, txn: TxnId, at: HybridTime) -> Result<String, Memory>
    ensures { IfOk result (λ text. string_bytes text ≡ answer_text (Told.Began txn at)) }
{
    let (id, micros, logical) = (id_of(txn), at.micros(), at.logical());
    format!(in alloc; "began {id} at {micros}.{logical}")
}

fn written(alloc: Global, at: HybridTime) -> Result<String, Memory>
    ensures { IfOk result (λ text. string_bytes text ≡ answer_text (Told.Written at)) }
{
    let (micros, logical) = (at.micros(), at.logical());
    format!(in alloc; "written at {micros}.{logical}")
}

fn committed(alloc: Global, txn: TxnId, at: HybridTime) -> Result<String, Memory>
    ensures { IfOk result (λ text. string_bytes text ≡ answer_text (Told.Committed txn at)) }
{
    let (id, micros, logical) = (id_of(txn), at.micros(), at.logical());
    format!(in alloc; "committed {id} at {micros}.{logical}")
}

fn ended(alloc: Global, txn: TxnId) -> Result<String, Memory>
    ensures { IfOk result (λ text. string_bytes text ≡ answer_text (Told.Ended txn)) }
{
    let id = id_of(txn);
    format!(in alloc; "ended {id}")
}

fn values(alloc: Global, at: HybridTime, restarts: u32, rows: &[Row]) -> Result<String, Memory>
    ensures { IfOk result (λ text. string_bytes text ≡ answer_text (Told.Values at restarts rows.now)) }
{
    let time = time_text(alloc, at)?;
    let head = format!(in alloc; "values at {time} restarts {restarts}:")?;
    let mut text = head.into_bytes();
    for row in rows {
        put_row(alloc, &mut text, row)?;
    }
    Ok(String::from_utf8(text).unwrap())
}

fn restarted(alloc: Global, kept: bool) -> Result<String, Memory>
    ensures { IfOk result (λ text. string_bytes text ≡ kept_text kept) }
{
    if kept {
        String::from_str(alloc, "restarted kept=yes")
    } else {
        String::from_str(alloc, "restarted kept=no")
    }
}

fn passed(alloc: Global, applied: u64, cleaned: u64, left: u64) -> Result<String, Memory>
    ensures { IfOk result (λ text. string_bytes text ≡ answer_text (Told.Passed applied cleaned left)) }
{
    format!(in alloc; "passed applied={applied} cleaned={cleaned} left={left}")
}
