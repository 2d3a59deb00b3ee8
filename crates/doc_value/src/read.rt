//! The value that bytes spell.
ghost use Rattle.std.specs.Prelude.{◌≡◌, ◌<◌, ◌≤◌, ◌++◌, Ok, List, ℕ, length, IfOk, IsErrOf, IsTrue};
ghost use Rattle.std.specs.Int.{w32, w64};
ghost use Rattle.doc_value.specs.Spelling.{spelling, has_spelling, IsInRange};
ghost use Rattle.doc_value.specs.Reading.{Gives, number_at, text_at, int_at, column_id_at, string_at, value_at, value_of};

use crate::encode::from_above_least;
use crate::key_refusal::KeyRefusal;
use crate::primitive::{LONGEST_TEXT, Primitive};
use crate::tag;
use docdb_base::Seq;
use std::alloc::Global;

/// The number of 32 bits at the front of `bytes`, high byte first, and the bytes after it. `bytes` are the last of
/// `whole` bytes, as in [`read_value`]. It takes no memory.
pub fn read_u32(whole: usize, bytes: &[u8]) -> Result<(u32, &[u8]), KeyRefusal>
    ensures value { Gives (λ x. (x.0, x.1.now)) result (number_at w32 whole bytes.now) }
    ensures takes_no_memory { ¬ IsErrOf result KeyRefusal.Memory }
    ensures rest { IfOk result (λ x. length x.1.now ≤ length bytes.now) }
{
    if bytes.len() < 4 {
        return Err(KeyRefusal::Truncated { at: whole as u64 });
    }
    let (front, rest) = bytes.split_at(4);
    let number = u32::from_be_bytes([front[0], front[1], front[2], front[3]]);
    Ok((number, rest))
}

/// The number of 64 bits at the front of `bytes`, as [`read_u32`] reads one of 32 bits.
pub fn read_u64(whole: usize, bytes: &[u8]) -> Result<(u64, &[u8]), KeyRefusal>
    ensures value { Gives (λ x. (x.0, x.1.now)) result (number_at w64 whole bytes.now) }
    ensures takes_no_memory { ¬ IsErrOf result KeyRefusal.Memory }
    ensures rest { IfOk result (λ x. length x.1.now ≤ length bytes.now) }
{
    if bytes.len() < 8 {
        return Err(KeyRefusal::Truncated { at: whole as u64 });
    }
    let (front, rest) = bytes.split_at(8);
    let number = u64::from_be_bytes([
        front[0], front[1], front[2], front[3], front[4], front[5], front[6], front[7],
    ]);
    Ok((number, rest))
}

#[tactic(auto, unfolding(crate::specs::Reading::text_at))]
fn text_at(alloc: Global, whole: usize, bytes: &[u8]) -> Result<(Vec<u8>, &[u8]), KeyRefusal>
    requires { length bytes.now ≤ whole }
    ensures value { Gives (λ x. (x.0.items, x.1.now)) result (text_at whole bytes.now) }
    ensures rest { IfOk result (λ x. length x.1.now ≤ length bytes.now) }
{
    let mut text = Vec::new(alloc);
    let mut rest = bytes;
    while let Some((byte, after)) = rest.split_first() {
        rest = after;
        if *byte != 0 {
            text.push(*byte)?;
            continue;
        }
        let Some((mark, after)) = rest.split_first() else {
            break;
        };
        match mark {
            0 => return Ok((text, after)),
            1 => text.push(0)?,
            _ => {
                return Err(KeyRefusal::BadText {
                    at: (whole - rest.len()) as u64,
                });
            }
        }
        rest = after;
    }
    Err(KeyRefusal::Truncated { at: whole as u64 })
}

#[tactic(auto, unfolding(crate::specs::Reading::int_at))]
fn int_at(whole: usize, bytes: &[u8]) -> Result<(Primitive, &[u8]), KeyRefusal>
    ensures value { Gives (λ x. (x.0, x.1.now)) result (int_at whole bytes.now) }
    ensures rest { IfOk result (λ x. length x.1.now ≤ length bytes.now) }
{
    let (number, rest) = read_u64(whole, bytes)?;
    Ok((Primitive::Int(from_above_least(number)), rest))
}

#[tactic(auto, unfolding(crate::specs::Reading::column_id_at))]
fn column_id_at(whole: usize, bytes: &[u8]) -> Result<(Primitive, &[u8]), KeyRefusal>
    ensures value { Gives (λ x. (x.0, x.1.now)) result (column_id_at whole bytes.now) }
    ensures rest { IfOk result (λ x. length x.1.now ≤ length bytes.now) }
{
    let (number, rest) = read_u32(whole, bytes)?;
    Ok((Primitive::Column(number), rest))
}

#[tactic(auto, unfolding(crate::specs::Reading::string_at))]
fn string_at(alloc: Global, whole: usize, bytes: &[u8]) -> Result<(Primitive, &[u8]), KeyRefusal>
    requires { length bytes.now < whole }
    ensures value { Gives (λ x. (x.0, x.1.now)) result (string_at whole bytes.now) }
    ensures rest { IfOk result (λ x. length x.1.now ≤ length bytes.now) }
{
    let (text, rest) = text_at(alloc, whole, bytes)?;
    if text.len() > LONGEST_TEXT {
        return Err(KeyRefusal::TooLong {
            at: (whole - bytes.len() - 1) as u64,
        });
    }
    Ok((Primitive::Text(Seq::of(text)), rest))
}

/// The value at the front of `bytes`, and the bytes after it. `bytes` are the last of `whole` bytes, and the
/// offset of a refusal counts from the first of these.
#[tactic(auto, unfolding(crate::specs::Reading::value_at))]
pub fn read_value(
    alloc: Global,
    whole: usize,
    bytes: &[u8],
) -> Result<(Primitive, &[u8]), KeyRefusal>
    requires { length bytes.now ≤ whole }
    ensures value { Gives (λ x. (x.0, x.1.now)) result (value_at whole bytes.now) }
    ensures rest { IfOk result (λ x. length x.1.now < length bytes.now) }
{
    match bytes {
        [] => Err(KeyRefusal::Truncated { at: whole as u64 }),
        [tag::FALSE, rest @ ..] => Ok((Primitive::False, rest)),
        [tag::INT64, rest @ ..] => int_at(whole, rest),
        [tag::COLUMN_ID, rest @ ..] => column_id_at(whole, rest),
        [tag::STRING, rest @ ..] => string_at(alloc, whole, rest),
        [tag::TRUE, rest @ ..] => Ok((Primitive::True, rest)),
        [_, ..] => Err(KeyRefusal::BadTag {
            at: (whole - bytes.len()) as u64,
        }),
    }
}

#[tactic(auto, unfolding(crate::specs::Reading::value_of, crate::specs::Reading::ended))]
fn value_of(alloc: Global, bytes: &[u8]) -> Result<Primitive, KeyRefusal>
    ensures { Gives (λ x. x) result (value_of bytes.now) }
{
    let (value, rest) = read_value(alloc, bytes.len(), bytes)?;
    if !rest.is_empty() {
        return Err(KeyRefusal::Spare {
            at: (bytes.len() - rest.len()) as u64,
        });
    }
    Ok(value)
}

/// The value that the bytes spell, all of them; or the first fault from the left.
pub fn decode(alloc: Global, bytes: &[u8]) -> Result<Primitive, KeyRefusal>
    // What is read is spelled so.
    ensures found { IfOk result (λ value. IsInRange value × IsTrue (has_spelling value) × (bytes.now ≡ spelling value)) }
    // What is spelled so is read, unless memory runs out.
    ensures only { (value : Primitive) → IsInRange value → IsTrue (has_spelling value) → bytes.now ≡ spelling value
        → Gives (λ x. x) result (Ok value) }
    // Which refusal it is: the first fault.
    ensures exact { Gives (λ x. x) result (value_of bytes.now) }
{
    value_of(alloc, bytes)
}
