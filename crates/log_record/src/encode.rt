//! The spelling of a record.
ghost use Rattle.std.specs.Prelude.{◌≡◌, ◌++◌, ◌∷◌, ◌≤◌, length, take, OnOk, OnErr, IsTrue};
ghost use Rattle.std.specs.List.{flat_map, list_all};
ghost use Rattle.log_record.specs.Spelling.{u32_spelling, u64_spelling, id_spelling, isolation_spelling};
ghost use Rattle.log_record.specs.Spelling.{bytes_spelling, path_spelling, op_spelling, tablets_spelling, by_spelling, meta_spelling};
ghost use Rattle.log_record.specs.Spelling.{are_bytes, is_path, is_op, spelling, has_spelling};

use crate::kind;
use crate::log_record::LogRecord;
use doc_path::Path;
use docdb_base::Memory;
use hybrid_time::HybridTime;
use txn_data::{Isolation, Meta, Op, TxnId};

#[tactic(auto, unfolding(crate::specs::Spelling::u32_spelling))]
fn append_u32(number: u32, out: &mut Vec<u8>) -> Result<(), Memory>
    ensures ok { OnOk result (out.new.items ≡ out.old.items ++ u32_spelling number) }
    ensures memory { OnErr result (take (length out.old.items) out.new.items ≡ out.old.items) }
{
    out.extend_from_slice(&number.to_be_bytes())
}

#[tactic(auto, unfolding(crate::specs::Spelling::u64_spelling))]
fn append_u64(number: u64, out: &mut Vec<u8>) -> Result<(), Memory>
    ensures ok { OnOk result (out.new.items ≡ out.old.items ++ u64_spelling number) }
    ensures memory { OnErr result (take (length out.old.items) out.new.items ≡ out.old.items) }
{
    out.extend_from_slice(&number.to_be_bytes())
}

/// A time as its number: microseconds times 4096, and the logical counter.
fn append_time(time: HybridTime, out: &mut Vec<u8>) -> Result<(), Memory>
    ensures ok { OnOk result (out.new.items ≡ out.old.items ++ u64_spelling time) }
    ensures memory { OnErr result (take (length out.old.items) out.new.items ≡ out.old.items) }
{
    append_u64(time.micros() * 4096 + u64::from(time.logical()), out)
}

fn append_id(txn: TxnId, out: &mut Vec<u8>) -> Result<(), Memory>
    ensures ok { OnOk result (out.new.items ≡ out.old.items ++ id_spelling txn) }
    ensures memory { OnErr result (take (length out.old.items) out.new.items ≡ out.old.items) }
{
    append_u64((txn.number / (1 << 64)) as u64, out)?;
    append_u64((txn.number % (1 << 64)) as u64, out)
}

fn append_isolation(isolation: Isolation, out: &mut Vec<u8>) -> Result<(), Memory>
    ensures ok { OnOk result (out.new.items ≡ out.old.items ++ isolation_spelling isolation) }
    ensures memory { OnErr result (take (length out.old.items) out.new.items ≡ out.old.items) }
{
    match isolation {
        Isolation::Snapshot => out.push(kind::SNAPSHOT)?,
    }
    Ok(())
}

fn append_bytes(bytes: &[u8], out: &mut Vec<u8>) -> Result<(), Memory>
    requires { IsTrue (are_bytes bytes.now) }
    ensures ok { OnOk result (out.new.items ≡ out.old.items ++ bytes_spelling bytes.now) }
    ensures memory { OnErr result (take (length out.old.items) out.new.items ≡ out.old.items) }
{
    append_u32(bytes.len() as u32, out)?;
    out.extend_from_slice(bytes)
}

fn append_parts(path: &Path, out: &mut Vec<u8>) -> Result<(), Memory>
    requires { IsTrue (list_all are_bytes path.now) }
    ensures ok { OnOk result (out.new.items ≡ out.old.items ++ flat_map bytes_spelling path.now) }
    ensures memory { OnErr result (take (length out.old.items) out.new.items ≡ out.old.items) }
{
    for i in 0..path.parts() {
        append_bytes(path.part(i), out)?;
    }
    Ok(())
}

fn append_path(path: &Path, out: &mut Vec<u8>) -> Result<(), Memory>
    requires { IsTrue (is_path path.now) }
    ensures ok { OnOk result (out.new.items ≡ out.old.items ++ path_spelling path.now) }
    ensures memory { OnErr result (take (length out.old.items) out.new.items ≡ out.old.items) }
{
    out.push(path.parts() as u8)?;
    append_parts(path, out)
}

fn append_op(op: &Op, out: &mut Vec<u8>) -> Result<(), Memory>
    requires { IsTrue (is_op op.now) }
    ensures ok { OnOk result (out.new.items ≡ out.old.items ++ op_spelling op.now) }
    ensures memory { OnErr result (take (length out.old.items) out.new.items ≡ out.old.items) }
{
    match op {
        Op::Put(value) => {
            out.push(kind::PUT)?;
            append_bytes(value.items(), out)?;
        }
        Op::Delete => out.push(kind::DELETE)?,
    }
    Ok(())
}

fn append_numbers(numbers: &[u32], out: &mut Vec<u8>) -> Result<(), Memory>
    ensures ok { OnOk result (out.new.items ≡ out.old.items ++ flat_map u32_spelling numbers.now) }
    ensures memory { OnErr result (take (length out.old.items) out.new.items ≡ out.old.items) }
{
    for number in numbers {
        append_u32(*number, out)?;
    }
    Ok(())
}

fn append_tablets(tablets: &[u32], out: &mut Vec<u8>) -> Result<(), Memory>
    requires { length tablets.now ≤ 64 }
    ensures ok { OnOk result (out.new.items ≡ out.old.items ++ tablets_spelling tablets.now) }
    ensures memory { OnErr result (take (length out.old.items) out.new.items ≡ out.old.items) }
{
    append_u32(tablets.len() as u32, out)?;
    append_numbers(tablets, out)
}

fn append_by(by: Option<TxnId>, out: &mut Vec<u8>) -> Result<(), Memory>
    ensures ok { OnOk result (out.new.items ≡ out.old.items ++ by_spelling by) }
    ensures memory { OnErr result (take (length out.old.items) out.new.items ≡ out.old.items) }
{
    match by {
        None => out.push(kind::OWN)?,
        Some(by) => {
            out.push(kind::OTHER)?;
            append_id(by, out)?;
        }
    }
    Ok(())
}

fn append_meta(meta: Meta, out: &mut Vec<u8>) -> Result<(), Memory>
    ensures ok { OnOk result (out.new.items ≡ out.old.items ++ meta_spelling meta) }
    ensures memory { OnErr result (take (length out.old.items) out.new.items ≡ out.old.items) }
{
    append_id(meta.txn, out)?;
    append_u32(meta.status, out)?;
    append_isolation(meta.isolation, out)?;
    append_u32(meta.priority, out)
}

/// An id and a time, as an Apply and a Commit have them.
fn append_id_at(txn: TxnId, at: HybridTime, out: &mut Vec<u8>) -> Result<(), Memory>
    ensures ok { OnOk result (out.new.items ≡ out.old.items ++ (id_spelling txn ++ u64_spelling at)) }
    ensures memory { OnErr result (take (length out.old.items) out.new.items ≡ out.old.items) }
{
    append_id(txn, out)?;
    append_time(at, out)
}

/// A time, a path and what is done there, as a write has them.
fn append_change(at: HybridTime, path: &Path, op: &Op, out: &mut Vec<u8>) -> Result<(), Memory>
    requires path { IsTrue (is_path path.now) }
    requires op { IsTrue (is_op op.now) }
    ensures ok { OnOk result (out.new.items ≡ out.old.items ++ (u64_spelling at ++ (path_spelling path.now ++ op_spelling op.now))) }
    ensures memory { OnErr result (take (length out.old.items) out.new.items ≡ out.old.items) }
{
    append_time(at, out)?;
    append_path(path, out)?;
    append_op(op, out)
}

fn append_numbered(
    number: u32,
    at: HybridTime,
    path: &Path,
    op: &Op,
    out: &mut Vec<u8>,
) -> Result<(), Memory>
    requires path { IsTrue (is_path path.now) }
    requires op { IsTrue (is_op op.now) }
    ensures ok { OnOk result (out.new.items ≡ out.old.items ++ (u32_spelling number ++ (u64_spelling at ++ (path_spelling path.now ++ op_spelling op.now)))) }
    ensures memory { OnErr result (take (length out.old.items) out.new.items ≡ out.old.items) }
{
    append_u32(number, out)?;
    append_change(at, path, op, out)
}

fn append_write(
    meta: Meta,
    number: u32,
    at: HybridTime,
    path: &Path,
    op: &Op,
    out: &mut Vec<u8>,
) -> Result<(), Memory>
    requires path { IsTrue (is_path path.now) }
    requires op { IsTrue (is_op op.now) }
    ensures ok { OnOk result (out.new.items ≡ out.old.items ++ (0x02 ∷ (meta_spelling meta ++ (u32_spelling number ++ (u64_spelling at ++ (path_spelling path.now ++ op_spelling op.now)))))) }
    ensures memory { OnErr result (take (length out.old.items) out.new.items ≡ out.old.items) }
{
    out.push(kind::WRITE)?;
    append_meta(meta, out)?;
    append_numbered(number, at, path, op, out)
}

fn append_single(
    txn: TxnId,
    at: HybridTime,
    path: &Path,
    op: &Op,
    out: &mut Vec<u8>,
) -> Result<(), Memory>
    requires path { IsTrue (is_path path.now) }
    requires op { IsTrue (is_op op.now) }
    ensures ok { OnOk result (out.new.items ≡ out.old.items ++ (0x05 ∷ (id_spelling txn ++ (u64_spelling at ++ (path_spelling path.now ++ op_spelling op.now))))) }
    ensures memory { OnErr result (take (length out.old.items) out.new.items ≡ out.old.items) }
{
    out.push(kind::SINGLE)?;
    append_id(txn, out)?;
    append_change(at, path, op, out)
}

fn append_begin(
    txn: TxnId,
    isolation: Isolation,
    priority: u32,
    out: &mut Vec<u8>,
) -> Result<(), Memory>
    ensures ok { OnOk result (out.new.items ≡ out.old.items ++ (0x06 ∷ (id_spelling txn ++ (isolation_spelling isolation ++ u32_spelling priority)))) }
    ensures memory { OnErr result (take (length out.old.items) out.new.items ≡ out.old.items) }
{
    out.push(kind::BEGIN)?;
    append_id(txn, out)?;
    append_isolation(isolation, out)?;
    append_u32(priority, out)
}

fn append_commit(
    txn: TxnId,
    at: HybridTime,
    tablets: &[u32],
    out: &mut Vec<u8>,
) -> Result<(), Memory>
    requires { length tablets.now ≤ 64 }
    ensures ok { OnOk result (out.new.items ≡ out.old.items ++ (0x07 ∷ (id_spelling txn ++ (u64_spelling at ++ tablets_spelling tablets.now)))) }
    ensures memory { OnErr result (take (length out.old.items) out.new.items ≡ out.old.items) }
{
    out.push(kind::COMMIT)?;
    append_id_at(txn, at, out)?;
    append_tablets(tablets, out)
}

fn append_apply(txn: TxnId, at: HybridTime, out: &mut Vec<u8>) -> Result<(), Memory>
    ensures ok { OnOk result (out.new.items ≡ out.old.items ++ (0x03 ∷ (id_spelling txn ++ u64_spelling at))) }
    ensures memory { OnErr result (take (length out.old.items) out.new.items ≡ out.old.items) }
{
    out.push(kind::APPLY)?;
    append_id_at(txn, at, out)
}

fn append_abort(txn: TxnId, by: Option<TxnId>, out: &mut Vec<u8>) -> Result<(), Memory>
    ensures ok { OnOk result (out.new.items ≡ out.old.items ++ (0x08 ∷ (id_spelling txn ++ by_spelling by))) }
    ensures memory { OnErr result (take (length out.old.items) out.new.items ≡ out.old.items) }
{
    out.push(kind::ABORT)?;
    append_id(txn, out)?;
    append_by(by, out)
}

impl LogRecord {
    fn append(&self, out: &mut Vec<u8>) -> Result<(), Memory>
        requires { IsTrue (has_spelling self.now) }
        ensures ok { OnOk result (out.new.items ≡ out.old.items ++ spelling self.now) }
        ensures memory { OnErr result (take (length out.old.items) out.new.items ≡ out.old.items) }
    {
        match self {
            LogRecord::Lease { until } => {
                out.push(kind::LEASE)?;
                append_u64(*until, out)
            }
            LogRecord::Write {
                meta,
                number,
                at,
                path,
                op,
            } => { append_write(*meta, *number, *at, path, op, out) }
            LogRecord::Apply { txn, at } => append_apply(*txn, *at, out),
            LogRecord::Clean { txn } => {
                out.push(kind::CLEAN)?;
                append_id(*txn, out)
            }
            LogRecord::Single { txn, at, path, op } => append_single(*txn, *at, path, op, out),
            LogRecord::Begin {
                txn,
                isolation,
                priority,
            } => { append_begin(*txn, *isolation, *priority, out) }
            LogRecord::Commit { txn, at, tablets } => {
                append_commit(*txn, *at, tablets.items(), out)
            }
            LogRecord::Abort { txn, by } => append_abort(*txn, *by, out),
            LogRecord::Forget { txn } => {
                out.push(kind::FORGET)?;
                append_id(*txn, out)
            }
        }
    }

    /// Appends the spelling of the record. If memory runs out, `out` is as before.
    pub fn encode(&self, out: &mut Vec<u8>) -> Result<(), Memory>
        requires { IsTrue (has_spelling self.now) }
        ensures ok { OnOk result (out.new.items ≡ out.old.items ++ spelling self.now) }
        ensures memory { OnErr result (out.new.items ≡ out.old.items) }
    {
        let before = out.len();
        let done = self.append(out);
        if done.is_err() {
            out.truncate(before);
        }
        done
    }
}
