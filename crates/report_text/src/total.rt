//! The line of the total.
ghost use Rattle.std.specs.Prelude.{◌≡◌, ◌++◌, IfOk, OnOk, string_bytes};
ghost use Rattle.serde_json.specs.View.{view};
ghost use Rattle.report_text.specs.Total.{json_total, plain_total, skew_text, total_data, total_text};

use crate::counts::Counts;
use docdb_base::Memory;
use serde_json::{Value, json};
use std::alloc::Global;

/// Puts the line of the total at the end, as JSON or plain. `agree` says whether clocks agreed.
pub(crate) fn put_total(
    alloc: Global,
    text: &mut String,
    json: bool,
    counts: &Counts,
    agree: bool,
) -> Result<(), Memory>
    ensures { OnOk result (string_bytes text.new ≡ string_bytes text.old ++ total_text json counts.now agree) }
{
    if json {
        let object = json_total(alloc, counts, agree)?;
        text.push_str(&object)?;
        text.push_str("\n")
    } else {
        let line = plain_total(alloc, counts, agree)?;
        text.push_str(&line)
    }
}

fn skew_text(agree: bool) -> &'static str
    ensures { result.now ≡ skew_text agree }
{
    if agree { "ok" } else { "broken" }
}

fn plain_total(alloc: Global, counts: &Counts, agree: bool) -> Result<String, Memory>
    ensures { IfOk result (λ line. string_bytes line ≡ plain_total counts.now agree) }
{
    let Counts {
        commands,
        ok,
        refused,
        committed,
        reads,
        restarts,
    } = *counts;
    let skew = skew_text(agree);
    let reads = format!(in alloc; "reads={reads} restarts={restarts} skew={skew}\n")?;
    format!(in alloc;
        "total commands={commands} ok={ok} refused={refused} committed={committed} {reads}"
    )
}

/// The object of the total, in compact form with its keys in byte order.
fn json_total(alloc: Global, counts: &Counts, agree: bool) -> Result<String, Memory>
    ensures { IfOk result (λ object. string_bytes object ≡ json_total counts.now agree) }
{
    let value = total_value(alloc, counts, skew_text(agree))?;
    let object = value.to_vec(alloc)?;
    Ok(String::from_utf8(object).unwrap())
}

fn total_value(alloc: Global, counts: &Counts, skew: &str) -> Result<Value, Memory>
    ensures { IfOk result (λ value. view value ≡ total_data counts.now skew.now) }
{
    json!(in alloc; {"commands": counts.commands, "committed": counts.committed, "ok": counts.ok, "reads": counts.reads,
        "refused": counts.refused, "restarts": counts.restarts, "skew": skew})
}
