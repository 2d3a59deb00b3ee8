//! The key that bytes spell.
ghost use Rattle.std.specs.Prelude.{◌≡◌, ◌<◌, ◌≤◌, ◌-◌, Ok, ℕ, length, IfOk, IsTrue};
ghost use Rattle.std.specs.Int.{w16};
ghost use Rattle.doc_value.specs.Reading.{Gives, onto, number_at};
ghost use Rattle.doc_key.specs.declared.doc_key.DocKey.{DocKey as Key};
ghost use Rattle.doc_key.specs.Spelling.{spelling, has_spelling, IsInRange};
ghost use Rattle.doc_key.specs.Reading.{is_column_tag, column_at, columns_at, group_at, hashed_key_at, plain_key_at, key_at, key_of};

use crate::doc_key::{DocKey, MOST_COLUMNS};
use crate::hash::hash_of_columns;
use crate::tag;
use doc_value::{KeyRefusal, Primitive, read_value, tag as value_tag};
use docdb_base::Seq;
use std::alloc::Global;

fn u16_at(whole: usize, bytes: &[u8]) -> Result<(u16, &[u8]), KeyRefusal>
    ensures value { Gives (λ x. (x.0, x.1.now)) result (number_at w16 whole bytes.now) }
    ensures rest { IfOk result (λ x. length x.1.now ≤ length bytes.now) }
{
    if bytes.len() < 2 {
        return Err(KeyRefusal::Truncated { at: whole as u64 });
    }
    let (front, rest) = bytes.split_at(2);
    Ok((u16::from_be_bytes([front[0], front[1]]), rest))
}

fn is_column_tag(tag: u8) -> bool
    ensures { result ≡ is_column_tag tag }
{
    matches!(
        tag,
        value_tag::FALSE | value_tag::INT64 | value_tag::STRING | value_tag::TRUE
    )
}

#[tactic(auto, unfolding(crate::specs::Reading::column_at))]
fn column_at(alloc: Global, whole: usize, bytes: &[u8]) -> Result<(Primitive, &[u8]), KeyRefusal>
    requires { length bytes.now ≤ whole }
    ensures value { Gives (λ x. (x.0, x.1.now)) result (column_at whole bytes.now) }
    ensures rest { IfOk result (λ x. length x.1.now < length bytes.now) }
{
    let Some((tag, _)) = bytes.split_first() else {
        return Err(KeyRefusal::Truncated { at: whole as u64 });
    };
    if is_column_tag(*tag) {
        read_value(alloc, whole, bytes)
    } else {
        Err(KeyRefusal::BadTag {
            at: (whole - bytes.len()) as u64,
        })
    }
}

/// The columns of a group that may have `most`, of which those in `columns` are read.
fn columns_at(
    alloc: Global,
    whole: usize,
    columns: Vec<Primitive>,
    most: usize,
    bytes: &[u8],
) -> Result<(Vec<Primitive>, &[u8]), KeyRefusal>
    requires suffix { length bytes.now ≤ whole }
    requires room { length columns.items ≤ most }
    ensures value { Gives (λ x. (x.0.items, x.1.now)) result (onto columns.items (columns_at whole (most - length columns.items) bytes.now)) }
    ensures rest { IfOk result (λ x. length x.1.now ≤ length bytes.now) }
    ensures few { IfOk result (λ x. length x.0.items ≤ most) }
{
    let mut columns = columns;
    let mut rest = bytes;
    while let Some((tag, after)) = rest.split_first() {
        if *tag == tag::GROUP_END {
            return Ok((columns, after));
        }
        if columns.len() == most && is_column_tag(*tag) {
            return Err(KeyRefusal::TooMany {
                at: (whole - rest.len()) as u64,
            });
        }
        let (column, after) = column_at(alloc, whole, rest)?;
        columns.push(column)?;
        rest = after;
    }
    Err(KeyRefusal::Truncated { at: whole as u64 })
}

#[tactic(auto, unfolding(crate::specs::Reading::group_at))]
fn group_at(
    alloc: Global,
    whole: usize,
    bytes: &[u8],
) -> Result<(Vec<Primitive>, &[u8]), KeyRefusal>
    requires { length bytes.now ≤ whole }
    ensures value { Gives (λ x. (x.0.items, x.1.now)) result (group_at whole bytes.now) }
    ensures rest { IfOk result (λ x. length x.1.now < length bytes.now) }
    ensures few { IfOk result (λ x. length x.0.items ≤ 8) }
{
    let (first, rest) = column_at(alloc, whole, bytes)?;
    let mut columns = Vec::new(alloc);
    columns.push(first)?;
    columns_at(alloc, whole, columns, MOST_COLUMNS, rest)
}

#[tactic(auto, unfolding(crate::specs::Reading::hashed_key_at))]
fn hashed_key_at(alloc: Global, whole: usize, bytes: &[u8]) -> Result<(DocKey, &[u8]), KeyRefusal>
    requires { length bytes.now ≤ whole }
    ensures value { Gives (λ x. (x.0, x.1.now)) result (hashed_key_at whole bytes.now) }
    ensures rest { IfOk result (λ x. length x.1.now ≤ length bytes.now) }
{
    let (hash, rest) = u16_at(whole, bytes)?;
    let (hashed, rest) = group_at(alloc, whole, rest)?;
    if hash != hash_of_columns(&hashed) {
        return Err(KeyRefusal::BadHash {
            at: (whole - bytes.len()) as u64,
        });
    }
    let room = MOST_COLUMNS - hashed.len();
    let (range, rest) = columns_at(alloc, whole, Vec::new(alloc), room, rest)?;
    Ok((
        DocKey {
            hashed: Seq::of(hashed),
            range: Seq::of(range),
        },
        rest,
    ))
}

#[tactic(auto, unfolding(crate::specs::Reading::plain_key_at))]
fn plain_key_at(alloc: Global, whole: usize, bytes: &[u8]) -> Result<(DocKey, &[u8]), KeyRefusal>
    requires { length bytes.now ≤ whole }
    ensures value { Gives (λ x. (x.0, x.1.now)) result (plain_key_at whole bytes.now) }
    ensures rest { IfOk result (λ x. length x.1.now < length bytes.now) }
{
    let (range, rest) = group_at(alloc, whole, bytes)?;
    Ok((
        DocKey {
            hashed: Seq::new(alloc),
            range: Seq::of(range),
        },
        rest,
    ))
}

/// The key at the front of `bytes`, and the bytes after it. `bytes` are the last of `whole` bytes, and the offset of
/// a refusal counts from the first of these.
#[tactic(auto, unfolding(crate::specs::Reading::key_at))]
pub fn read_key(alloc: Global, whole: usize, bytes: &[u8]) -> Result<(DocKey, &[u8]), KeyRefusal>
    requires { length bytes.now ≤ whole }
    ensures value { Gives (λ x. (x.0, x.1.now)) result (key_at whole bytes.now) }
    ensures rest { IfOk result (λ x. length x.1.now < length bytes.now) }
{
    let Some((tag, rest)) = bytes.split_first() else {
        return Err(KeyRefusal::Truncated { at: whole as u64 });
    };
    if *tag == tag::HASH {
        hashed_key_at(alloc, whole, rest)
    } else {
        plain_key_at(alloc, whole, bytes)
    }
}

#[tactic(auto, unfolding(crate::specs::Reading::key_of, doc_value::specs::Reading::ended))]
fn key_of(alloc: Global, bytes: &[u8]) -> Result<DocKey, KeyRefusal>
    ensures { Gives (λ x. x) result (key_of bytes.now) }
{
    let (key, rest) = read_key(alloc, bytes.len(), bytes)?;
    if !rest.is_empty() {
        return Err(KeyRefusal::Spare {
            at: (bytes.len() - rest.len()) as u64,
        });
    }
    Ok(key)
}

/// The key that the bytes spell, all of them; or the first fault from the left.
pub fn decode(alloc: Global, bytes: &[u8]) -> Result<DocKey, KeyRefusal>
    // What is read is spelled so.
    ensures found { IfOk result (λ key. IsInRange key × IsTrue (has_spelling key) × (bytes.now ≡ spelling key)) }
    // What is spelled so is read, unless memory runs out.
    ensures only { (key : Key) → IsInRange key → IsTrue (has_spelling key) → bytes.now ≡ spelling key
        → Gives (λ x. x) result (Ok key) }
    // Which refusal it is: the first fault.
    ensures exact { Gives (λ x. x) result (key_of bytes.now) }
{
    key_of(alloc, bytes)
}
