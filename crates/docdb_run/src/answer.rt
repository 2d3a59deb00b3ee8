//! What is told of a command, as text.
ghost use Rattle.std.specs.Prelude.{◌≡◌, ◌++◌, ◌-◌, ◌^◌, IfOk, OnOk, flat_map, string_bytes, slice_index, drop};
ghost use Rattle.std.specs.Int.{from_be_bytes, w64};
ghost use Rattle.docdb_run.specs.Text.{id_text, time_text, actor_text, letters_of, path_text, value_text, row_text, refusal_text, answer_text};

use doc_path::Path;
use docdb_base::Memory;
use hybrid_time::HybridTime;
use std::alloc::Global;
use txn_types::{Actor, Bytes, Row, Told, ToldRefusal, TxnId};
use uuid::Uuid;

/// The text of what is told. What the scripts of this form cannot be told has none.
pub fn answer(alloc: Global, told: &Told) -> Result<Vec<u8>, Memory>
    ensures { IfOk result (λ text. text.items ≡ answer_text told.now) }
{
    match told {
        Told::Committed { txn, at } => committed(alloc, *txn, *at),
        Told::Values { at, restarts, rows } => values(alloc, *at, *restarts, rows.items()),
        Told::Passed {
            applied,
            cleaned,
            left,
        } => passed(alloc, *applied, *cleaned, *left),
        Told::Set => b"set".to_vec(alloc),
        Told::Refused(refusal) => refused(alloc, refusal),
        _ => Ok(Vec::new(alloc)),
    }
}

fn committed(alloc: Global, txn: TxnId, at: HybridTime) -> Result<Vec<u8>, Memory>
    ensures { IfOk result (λ text. text.items ≡ answer_text (Told.Committed txn at)) }
{
    let id = id(alloc, txn)?;
    let time = time(alloc, at)?;
    let text = format!(in alloc; "committed {id} at {time}")?;
    text.as_bytes().to_vec(alloc)
}

fn values(alloc: Global, at: HybridTime, restarts: u32, rows: &[Row]) -> Result<Vec<u8>, Memory>
    ensures { IfOk result (λ text. text.items ≡ answer_text (Told.Values at restarts rows.now)) }
{
    let time = time(alloc, at)?;
    let head = format!(in alloc; "values at {time} restarts {restarts}:")?;
    let mut text = head.as_bytes().to_vec(alloc)?;
    for row in rows {
        put_row(alloc, &mut text, row)?;
    }
    Ok(text)
}

fn passed(alloc: Global, applied: u64, cleaned: u64, left: u64) -> Result<Vec<u8>, Memory>
    ensures { IfOk result (λ text. text.items ≡ answer_text (Told.Passed applied cleaned left)) }
{
    let text = format!(in alloc; "passed applied={applied} cleaned={cleaned} left={left}")?;
    text.as_bytes().to_vec(alloc)
}

fn refused(alloc: Global, refusal: &ToldRefusal) -> Result<Vec<u8>, Memory>
    ensures { IfOk result (λ text. text.items ≡ refusal_text refusal.now) }
{
    match refusal {
        ToldRefusal::ClockFull { actor, at } => clock_full(alloc, *actor, *at),
        ToldRefusal::Memory => b"refused memory".to_vec(alloc),
        _ => Ok(Vec::new(alloc)),
    }
}

fn clock_full(alloc: Global, actor: Actor, at: HybridTime) -> Result<Vec<u8>, Memory>
    ensures { IfOk result (λ text. text.items ≡ refusal_text (ToldRefusal.ClockFull actor at)) }
{
    let actor = actor_name(alloc, actor)?;
    let time = time(alloc, at)?;
    let text = format!(in alloc; "refused clock-full {actor} {time}")?;
    text.as_bytes().to_vec(alloc)
}

fn id(alloc: Global, txn: TxnId) -> Result<String, Memory>
    ensures { IfOk result (λ text. string_bytes text ≡ id_text txn) }
{
    let id = Uuid::from_u128(txn.number).hyphenated();
    format!(in alloc; "{id}")
}

fn time(alloc: Global, at: HybridTime) -> Result<String, Memory>
    ensures { IfOk result (λ text. string_bytes text ≡ time_text at) }
{
    let (micros, logical) = (at.micros(), at.logical());
    format!(in alloc; "{micros}.{logical}")
}

fn actor_name(alloc: Global, actor: Actor) -> Result<String, Memory>
    ensures { IfOk result (λ text. string_bytes text ≡ actor_text actor) }
{
    match actor {
        Actor::Tablet(k) => format!(in alloc; "t{k}"),
        Actor::Status(j) => format!(in alloc; "s{j}"),
        Actor::Session(i) => format!(in alloc; "{i}"),
        Actor::Applier(k) => format!(in alloc; "a{k}"),
    }
}

fn put_row(alloc: Global, text: &mut Vec<u8>, row: &Row) -> Result<(), Memory>
    ensures { OnOk result (text.new.items ≡ text.old.items ++ row_text row.now) }
{
    text.push(b' ')?;
    put_path(text, &row.path)?;
    text.push(b'=')?;
    put_value(alloc, text, &row.value)
}

fn put_path(text: &mut Vec<u8>, path: &Path) -> Result<(), Memory>
    ensures { OnOk result (text.new.items ≡ text.old.items ++ path_text path.now) }
{
    prove!(path.parts() > 0);
    text.extend_from_slice(b"[;\"")?;
    text.extend_from_slice(letters_of(path.part(0)))?;
    text.extend_from_slice(b"\"]")
}

/// The letters between a key's tag and its three last bytes.
fn letters_of(key: &[u8]) -> &[u8]
    ensures { result.now ≡ letters_of key.now }
{
    if key.len() < 4 {
        return &[];
    }
    &key[1..key.len() - 3]
}

fn put_value(alloc: Global, text: &mut Vec<u8>, value: &Option<Bytes>) -> Result<(), Memory>
    ensures { OnOk result (text.new.items ≡ text.old.items ++ value_text value.now) }
{
    let Some(bytes) = value else {
        return text.extend_from_slice(b"-");
    };
    let number = number_of(bytes.items());
    let digits = format!(in alloc; "{number}")?;
    text.extend_from_slice(digits.as_bytes())
}

/// The number after a value's tag.
fn number_of(value: &[u8]) -> u64
    ensures { result ≡ from_be_bytes w64 (drop 1 value.now) - 2 ^ 63 }
{
    let bytes = [
        at(value, 1),
        at(value, 2),
        at(value, 3),
        at(value, 4),
        at(value, 5),
        at(value, 6),
        at(value, 7),
        at(value, 8),
    ];
    u64::from_be_bytes(bytes).saturating_sub(1 << 63)
}

/// The byte at this place, or 0 where there is none.
fn at(bytes: &[u8], place: usize) -> u8
    ensures { result ≡ slice_index bytes.now place }
{
    bytes.get(place).copied().unwrap_or(0)
}
