//! The record that bytes spell.
ghost use Rattle.std.specs.Prelude.{◌≡◌, ◌≤◌, Ok, length, IfOk};
ghost use Rattle.log_record.specs.declared.log_record.LogRecord.{LogRecord as Record};
ghost use Rattle.log_record.specs.Spelling.{Spells};
ghost use Rattle.log_record.specs.Reading.{Gives};
ghost use Rattle.log_record.specs.Reading.{lease_at, write_at, apply_at, clean_at, forget_at, single_at, begin_at, commit_at, abort_at, record_at, record_of};

use crate::log_record::LogRecord;
use crate::record_refusal::RecordRefusal;
use crate::{fields, kind};
use docdb_base::Seq;
use std::alloc::Global;
use txn_data::{Meta, TxnId};

fn write_at(alloc: Global, whole: usize, bytes: &[u8]) -> Result<(LogRecord, &[u8]), RecordRefusal>
    requires { length bytes.now ≤ whole }
    ensures value { Gives (λ x. (x.0, x.1.now)) result (write_at whole bytes.now) }
    ensures rest { IfOk result (λ x. length x.1.now ≤ length bytes.now) }
{
    let (txn, rest) = fields::id_at(whole, bytes)?;
    let (status, rest) = fields::u32_at(whole, rest)?;
    let (isolation, rest) = fields::isolation_at(whole, rest)?;
    let (priority, rest) = fields::u32_at(whole, rest)?;
    let (number, rest) = fields::u32_at(whole, rest)?;
    let (at, rest) = fields::u64_at(whole, rest)?;
    let (path, rest) = fields::path_at(alloc, whole, rest)?;
    let (op, rest) = fields::op_at(alloc, whole, rest)?;
    let meta = Meta {
        txn: TxnId { number: txn },
        status,
        isolation,
        priority,
    };
    let record = LogRecord::Write {
        meta,
        number,
        at: fields::time_of(at),
        path,
        op,
    };
    Ok((record, rest))
}

fn lease_at(whole: usize, bytes: &[u8]) -> Result<(LogRecord, &[u8]), RecordRefusal>
    ensures value { Gives (λ x. (x.0, x.1.now)) result (lease_at whole bytes.now) }
    ensures rest { IfOk result (λ x. length x.1.now ≤ length bytes.now) }
{
    let (until, rest) = fields::u64_at(whole, bytes)?;
    Ok((LogRecord::Lease { until }, rest))
}

fn apply_at(whole: usize, bytes: &[u8]) -> Result<(LogRecord, &[u8]), RecordRefusal>
    ensures value { Gives (λ x. (x.0, x.1.now)) result (apply_at whole bytes.now) }
    ensures rest { IfOk result (λ x. length x.1.now ≤ length bytes.now) }
{
    let (number, rest) = fields::id_at(whole, bytes)?;
    let (at, rest) = fields::u64_at(whole, rest)?;
    let record = LogRecord::Apply {
        txn: TxnId { number },
        at: fields::time_of(at),
    };
    Ok((record, rest))
}

fn clean_at(whole: usize, bytes: &[u8]) -> Result<(LogRecord, &[u8]), RecordRefusal>
    ensures value { Gives (λ x. (x.0, x.1.now)) result (clean_at whole bytes.now) }
    ensures rest { IfOk result (λ x. length x.1.now ≤ length bytes.now) }
{
    let (number, rest) = fields::id_at(whole, bytes)?;
    let txn = TxnId { number };
    Ok((LogRecord::Clean { txn }, rest))
}

fn forget_at(whole: usize, bytes: &[u8]) -> Result<(LogRecord, &[u8]), RecordRefusal>
    ensures value { Gives (λ x. (x.0, x.1.now)) result (forget_at whole bytes.now) }
    ensures rest { IfOk result (λ x. length x.1.now ≤ length bytes.now) }
{
    let (number, rest) = fields::id_at(whole, bytes)?;
    let txn = TxnId { number };
    Ok((LogRecord::Forget { txn }, rest))
}

fn single_at(alloc: Global, whole: usize, bytes: &[u8]) -> Result<(LogRecord, &[u8]), RecordRefusal>
    requires { length bytes.now ≤ whole }
    ensures value { Gives (λ x. (x.0, x.1.now)) result (single_at whole bytes.now) }
    ensures rest { IfOk result (λ x. length x.1.now ≤ length bytes.now) }
{
    let (number, rest) = fields::id_at(whole, bytes)?;
    let (at, rest) = fields::u64_at(whole, rest)?;
    let (path, rest) = fields::path_at(alloc, whole, rest)?;
    let (op, rest) = fields::op_at(alloc, whole, rest)?;
    let record = LogRecord::Single {
        txn: TxnId { number },
        at: fields::time_of(at),
        path,
        op,
    };
    Ok((record, rest))
}

fn begin_at(whole: usize, bytes: &[u8]) -> Result<(LogRecord, &[u8]), RecordRefusal>
    requires { length bytes.now ≤ whole }
    ensures value { Gives (λ x. (x.0, x.1.now)) result (begin_at whole bytes.now) }
    ensures rest { IfOk result (λ x. length x.1.now ≤ length bytes.now) }
{
    let (number, rest) = fields::id_at(whole, bytes)?;
    let (isolation, rest) = fields::isolation_at(whole, rest)?;
    let (priority, rest) = fields::u32_at(whole, rest)?;
    let record = LogRecord::Begin {
        txn: TxnId { number },
        isolation,
        priority,
    };
    Ok((record, rest))
}

fn commit_at(alloc: Global, whole: usize, bytes: &[u8]) -> Result<(LogRecord, &[u8]), RecordRefusal>
    requires { length bytes.now ≤ whole }
    ensures value { Gives (λ x. (x.0, x.1.now)) result (commit_at whole bytes.now) }
    ensures rest { IfOk result (λ x. length x.1.now ≤ length bytes.now) }
{
    let (number, rest) = fields::id_at(whole, bytes)?;
    let (at, rest) = fields::u64_at(whole, rest)?;
    let (tablets, rest) = fields::tablets_at(alloc, whole, rest)?;
    let record = LogRecord::Commit {
        txn: TxnId { number },
        at: fields::time_of(at),
        tablets: Seq::of(tablets),
    };
    Ok((record, rest))
}

fn abort_at(whole: usize, bytes: &[u8]) -> Result<(LogRecord, &[u8]), RecordRefusal>
    requires { length bytes.now ≤ whole }
    ensures value { Gives (λ x. (x.0, x.1.now)) result (abort_at whole bytes.now) }
    ensures rest { IfOk result (λ x. length x.1.now ≤ length bytes.now) }
{
    let (number, rest) = fields::id_at(whole, bytes)?;
    // A `match`, since `?` over an id beside a slice gets no proof.
    match fields::by_at(whole, rest) {
        Ok((by, rest)) => {
            let record = LogRecord::Abort {
                txn: TxnId { number },
                by,
            };
            Ok((record, rest))
        }
        Err(refusal) => Err(refusal),
    }
}

/// The record at the front of `bytes`, and the bytes after it.
#[tactic(auto, unfolding(crate::specs::Reading::record_at))]
fn record_at(alloc: Global, whole: usize, bytes: &[u8]) -> Result<(LogRecord, &[u8]), RecordRefusal>
    requires { length bytes.now ≤ whole }
    ensures value { Gives (λ x. (x.0, x.1.now)) result (record_at whole bytes.now) }
    ensures rest { IfOk result (λ x. length x.1.now ≤ length bytes.now) }
{
    match bytes {
        [] => Err(RecordRefusal::Truncated { at: whole as u64 }),
        [kind::LEASE, rest @ ..] => lease_at(whole, rest),
        [kind::WRITE, rest @ ..] => write_at(alloc, whole, rest),
        [kind::APPLY, rest @ ..] => apply_at(whole, rest),
        [kind::CLEAN, rest @ ..] => clean_at(whole, rest),
        [kind::SINGLE, rest @ ..] => single_at(alloc, whole, rest),
        [kind::BEGIN, rest @ ..] => begin_at(whole, rest),
        [kind::COMMIT, rest @ ..] => commit_at(alloc, whole, rest),
        [kind::ABORT, rest @ ..] => abort_at(whole, rest),
        [kind::FORGET, rest @ ..] => forget_at(whole, rest),
        [_, ..] => Err(RecordRefusal::BadKind {
            at: (whole - bytes.len()) as u64,
        }),
    }
}

#[tactic(auto, unfolding(crate::specs::Reading::record_of, crate::specs::Reading::ended))]
fn record_of(alloc: Global, bytes: &[u8]) -> Result<LogRecord, RecordRefusal>
    ensures { Gives (λ x. x) result (record_of bytes.now) }
{
    let (record, rest) = record_at(alloc, bytes.len(), bytes)?;
    if !rest.is_empty() {
        return Err(RecordRefusal::Spare {
            at: (bytes.len() - rest.len()) as u64,
        });
    }
    Ok(record)
}

/// The record that the bytes spell, all of them; or the first fault from the left.
pub fn decode(alloc: Global, bytes: &[u8]) -> Result<LogRecord, RecordRefusal>
    // What is read is spelled so.
    ensures found { IfOk result (Spells bytes.now) }
    // What is spelled so is read, unless memory runs out.
    ensures only { (r : Record) → Spells bytes.now r → Gives (λ x. x) result (Ok r) }
    // Which refusal it is: the first fault.
    ensures exact { Gives (λ x. x) result (record_of bytes.now) }
{
    record_of(alloc, bytes)
}
