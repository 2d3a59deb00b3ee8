//! The fields of a record, read off the front of bytes. `bytes` are the last of `whole` bytes, and the offset of a
//! refusal counts from the first of these.
ghost use Rattle.std.specs.Prelude.{◌≡◌, ◌+◌, ◌<◌, ◌≤◌, ◌∷◌, ◌++◌, [], length, IfOk, IfErr};
ghost use Rattle.log_record.specs.declared.record_refusal.RecordRefusal.TheVariants.{Memory};
ghost use Rattle.log_record.specs.Reading.{Gives, onto, each, byte_at, bytes_of, u32_at, u64_at, id_at, isolation_at};
ghost use Rattle.log_record.specs.Reading.{bytes_at, path_at, op_at, tablets_at, by_at};

use crate::kind;
use crate::log_record::{LONGEST_BYTES, MOST_PARTS, MOST_TABLETS};
use crate::record_refusal::RecordRefusal;
use doc_path::Path;
use docdb_base::Seq;
use hybrid_time::HybridTime;
use std::alloc::Global;
use txn_data::{Isolation, Op, TxnId};

pub(crate) fn bytes_of(
    count: usize,
    whole: usize,
    bytes: &[u8],
) -> Result<(&[u8], &[u8]), RecordRefusal>
    ensures value { Gives (λ x. (x.0.now, x.1.now)) result (bytes_of count whole bytes.now) }
    ensures rest { IfOk result (λ x. length x.1.now ≤ length bytes.now) }
{
    if bytes.len() < count {
        return Err(RecordRefusal::Truncated { at: whole as u64 });
    }
    Ok(bytes.split_at(count))
}

pub(crate) fn u32_at(whole: usize, bytes: &[u8]) -> Result<(u32, &[u8]), RecordRefusal>
    ensures value { Gives (λ x. (x.0, x.1.now)) result (u32_at whole bytes.now) }
    ensures rest { IfOk result (λ x. length x.1.now ≤ length bytes.now) }
{
    let (number, rest) = bytes_of(4, whole, bytes)?;
    let number = u32::from_be_bytes([number[0], number[1], number[2], number[3]]);
    Ok((number, rest))
}

pub(crate) fn u64_at(whole: usize, bytes: &[u8]) -> Result<(u64, &[u8]), RecordRefusal>
    ensures value { Gives (λ x. (x.0, x.1.now)) result (u64_at whole bytes.now) }
    ensures rest { IfOk result (λ x. length x.1.now ≤ length bytes.now) }
{
    let (number, rest) = bytes_of(8, whole, bytes)?;
    let number = u64::from_be_bytes([
        number[0], number[1], number[2], number[3], number[4], number[5], number[6], number[7],
    ]);
    Ok((number, rest))
}

/// The time that is seen as this number.
pub(crate) fn time_of(number: u64) -> HybridTime
    ensures { result ≡ number }
{
    HybridTime::of(number / 4096, (number % 4096) as u16)
}

/// The number of an id.
pub(crate) fn id_at(whole: usize, bytes: &[u8]) -> Result<(u128, &[u8]), RecordRefusal>
    ensures value { Gives (λ x. (x.0, x.1.now)) result (id_at whole bytes.now) }
    ensures rest { IfOk result (λ x. length x.1.now ≤ length bytes.now) }
{
    let (session, rest) = u64_at(whole, bytes)?;
    let (serial, rest) = u64_at(whole, rest)?;
    let number = u128::from(session) * (1 << 64) + u128::from(serial);
    Ok((number, rest))
}

#[tactic(auto, unfolding(crate::specs::Reading::isolation_at))]
pub(crate) fn isolation_at(whole: usize, bytes: &[u8]) -> Result<(Isolation, &[u8]), RecordRefusal>
    requires { length bytes.now ≤ whole }
    ensures value { Gives (λ x. (x.0, x.1.now)) result (isolation_at whole bytes.now) }
    ensures rest { IfOk result (λ x. length x.1.now ≤ length bytes.now) }
{
    match bytes {
        [] => Err(RecordRefusal::Truncated { at: whole as u64 }),
        [kind::SNAPSHOT, rest @ ..] => Ok((Isolation::Snapshot, rest)),
        [_, ..] => Err(RecordRefusal::BadFlag {
            at: (whole - bytes.len()) as u64,
        }),
    }
}

/// Bytes behind their length.
pub(crate) fn bytes_at(whole: usize, bytes: &[u8]) -> Result<(&[u8], &[u8]), RecordRefusal>
    requires { length bytes.now ≤ whole }
    ensures value { Gives (λ x. (x.0.now, x.1.now)) result (bytes_at whole bytes.now) }
    ensures rest { IfOk result (λ x. length x.1.now ≤ length bytes.now) }
{
    let (count, rest) = u32_at(whole, bytes)?;
    if !(1..=LONGEST_BYTES).contains(&(count as usize)) {
        return Err(RecordRefusal::BadLength {
            at: (whole - bytes.len()) as u64,
        });
    }
    bytes_of(count as usize, whole, rest)
}

#[tactic(auto, unfolding(crate::specs::Reading::flagged))]
pub(crate) fn op_at(alloc: Global, whole: usize, bytes: &[u8]) -> Result<(Op, &[u8]), RecordRefusal>
    requires { length bytes.now ≤ whole }
    ensures value { Gives (λ x. (x.0, x.1.now)) result (op_at whole bytes.now) }
    ensures rest { IfOk result (λ x. length x.1.now ≤ length bytes.now) }
{
    match bytes {
        [] => Err(RecordRefusal::Truncated { at: whole as u64 }),
        [kind::DELETE, rest @ ..] => Ok((Op::Delete, rest)),
        [kind::PUT, rest @ ..] => {
            let (value, rest) = bytes_at(whole, rest)?;
            Ok((Op::Put(Seq::of(value.to_vec(alloc)?)), rest))
        }
        [_, ..] => Err(RecordRefusal::BadFlag {
            at: (whole - bytes.len()) as u64,
        }),
    }
}

#[tactic(auto, unfolding(crate::specs::Reading::flagged))]
pub(crate) fn by_at(whole: usize, bytes: &[u8]) -> Result<(Option<TxnId>, &[u8]), RecordRefusal>
    requires { length bytes.now ≤ whole }
    ensures value { Gives (λ x. (x.0, x.1.now)) result (by_at whole bytes.now) }
    ensures rest { IfOk result (λ x. length x.1.now ≤ length bytes.now) }
{
    match bytes {
        [] => Err(RecordRefusal::Truncated { at: whole as u64 }),
        [kind::OWN, rest @ ..] => Ok((None, rest)),
        [kind::OTHER, rest @ ..] => {
            let (number, rest) = id_at(whole, rest)?;
            Ok((Some(TxnId { number }), rest))
        }
        [_, ..] => Err(RecordRefusal::BadFlag {
            at: (whole - bytes.len()) as u64,
        }),
    }
}

#[tactic(auto, unfolding(crate::specs::Reading::byte_at))]
fn byte_at(whole: usize, bytes: &[u8]) -> Result<(u8, &[u8]), RecordRefusal>
    ensures value { Gives (λ x. (x.0, x.1.now)) result (byte_at whole bytes.now) }
    ensures rest { IfOk result (λ x. length x.1.now ≤ length bytes.now) }
{
    match bytes {
        [] => Err(RecordRefusal::Truncated { at: whole as u64 }),
        [byte, rest @ ..] => Ok((*byte, rest)),
    }
}

/// So many tablets.
fn numbers_at(
    alloc: Global,
    count: usize,
    whole: usize,
    bytes: &[u8],
) -> Result<(Vec<u32>, &[u8]), RecordRefusal>
    ensures value { Gives (λ x. (x.0.items, x.1.now)) result (each u32_at count whole bytes.now) }
    ensures rest { IfOk result (λ x. length x.1.now ≤ length bytes.now) }
{
    let mut numbers = Vec::new(alloc);
    let mut rest = bytes;
    for _ in 0..count {
        let (number, after) = u32_at(whole, rest)?;
        numbers.push(number)?;
        rest = after;
    }
    Ok((numbers, rest))
}

/// Tablets behind their count.
pub(crate) fn tablets_at(
    alloc: Global,
    whole: usize,
    bytes: &[u8],
) -> Result<(Vec<u32>, &[u8]), RecordRefusal>
    requires { length bytes.now ≤ whole }
    ensures value { Gives (λ x. (x.0.items, x.1.now)) result (tablets_at whole bytes.now) }
    ensures rest { IfOk result (λ x. length x.1.now ≤ length bytes.now) }
{
    let (count, rest) = u32_at(whole, bytes)?;
    if count as usize > MOST_TABLETS {
        return Err(RecordRefusal::BadLength {
            at: (whole - bytes.len()) as u64,
        });
    }
    numbers_at(alloc, count as usize, whole, rest)
}

/// The path with one more part. It has room for it, so that out of memory is all that `push` may answer.
fn with_part(path: Path, part: &[u8]) -> Result<Path, RecordRefusal>
    requires { length path < 5 }
    ensures ok { IfOk result (λ p. p ≡ path ++ part.now ∷ []) }
    ensures memory { IfErr result (λ e. e ≡ Memory) }
{
    let mut path = path;
    match path.push(part) {
        Ok(()) => Ok(path),
        Err(_) => Err(RecordRefusal::Memory),
    }
}

/// So many parts more of a path.
fn parts_at(
    path: Path,
    count: usize,
    whole: usize,
    bytes: &[u8],
) -> Result<(Path, &[u8]), RecordRefusal>
    requires suffix { length bytes.now ≤ whole }
    requires few { length path + count ≤ 5 }
    ensures value { Gives (λ x. (x.0, x.1.now)) result (onto path (each bytes_at count whole bytes.now)) }
    ensures rest { IfOk result (λ x. length x.1.now ≤ length bytes.now) }
{
    let mut path = path;
    let mut rest = bytes;
    for _ in 0..count {
        let (part, after) = bytes_at(whole, rest)?;
        path = with_part(path, part)?;
        rest = after;
    }
    Ok((path, rest))
}

/// A path of so many parts, of which there is one at least.
fn some_parts_at(
    alloc: Global,
    count: usize,
    whole: usize,
    bytes: &[u8],
) -> Result<(Path, &[u8]), RecordRefusal>
    requires suffix { length bytes.now ≤ whole }
    requires some { 1 ≤ count }
    requires few { count ≤ 5 }
    ensures value { Gives (λ x. (x.0, x.1.now)) result (each bytes_at count whole bytes.now) }
    ensures rest { IfOk result (λ x. length x.1.now ≤ length bytes.now) }
{
    let (first, rest) = bytes_at(whole, bytes)?;
    parts_at(Path::of(alloc, first)?, count - 1, whole, rest)
}

/// The parts of a path behind their count.
pub(crate) fn path_at(
    alloc: Global,
    whole: usize,
    bytes: &[u8],
) -> Result<(Path, &[u8]), RecordRefusal>
    requires { length bytes.now ≤ whole }
    ensures value { Gives (λ x. (x.0, x.1.now)) result (path_at whole bytes.now) }
    ensures rest { IfOk result (λ x. length x.1.now ≤ length bytes.now) }
{
    let (count, rest) = byte_at(whole, bytes)?;
    let count = count as usize;
    if !(1..=MOST_PARTS).contains(&count) {
        return Err(RecordRefusal::BadLength {
            at: (whole - bytes.len()) as u64,
        });
    }
    some_parts_at(alloc, count, whole, rest)
}
