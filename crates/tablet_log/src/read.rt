//! The records of a log.
ghost use Rattle.std.specs.Prelude.{◌≡◌, ◌≢◌, ◌<◌, ◌≤◌, ◌++◌, ℕ, length, take, drop, Err, IfOk, IfErr, OnOk, OnErr, IsErrOf};
ghost use Rattle.std.specs.Int.{w32, from_be_bytes};
ghost use Rattle.docdb_outside.specs.Count.{Rose};
ghost use Rattle.tablet_log.specs.Refusals.{unread};
ghost use Rattle.tablet_log.specs.Frames.{frame, IsRecord, NoFrame, Holds, IsBroken, IsUnread};

use crate::replay_refusal::ReplayRefusal;
use docdb_outside::LogStore;
use log_record::{LogRecord, RecordRefusal, decode, spellings_are_short};
use std::alloc::Global;

/// The number of the bytes of a payload, and the bytes behind it.
fn count_at(bytes: &[u8]) -> (usize, &[u8])
    requires { 4 ≤ length bytes.now }
    ensures count { result.0 ≡ from_be_bytes w32 (take 4 bytes.now) }
    ensures rest { result.1.now ≡ drop 4 bytes.now }
{
    let (count, rest) = bytes.split_at(4);
    let count = u32::from_be_bytes([count[0], count[1], count[2], count[3]]);
    (count as usize, rest)
}

/// Why a frame at this offset is not read, where its payload does not decode.
fn unread(offset: u64, refusal: RecordRefusal) -> ReplayRefusal
    ensures { result ≡ unread offset refusal }
{
    match refusal {
        RecordRefusal::Memory => ReplayRefusal::Memory,
        _ => ReplayRefusal::LogBad { offset },
    }
}

/// The record of the frame at the front of `bytes`, which stand at this offset of a log, and the bytes after it.
fn frame_at(alloc: Global, offset: u64, bytes: &[u8]) -> Result<(LogRecord, &[u8]), ReplayRefusal>
    ensures found { IfOk result (λ x. IsRecord x.0 × (bytes.now ≡ frame x.0 ++ x.1.now)) }
    ensures shorter { IfOk result (λ x. length x.1.now < length bytes.now) }
    ensures refused { IfErr result (IsUnread (NoFrame bytes.now) offset) }
{
    spellings_are_short();
    if bytes.len() < 4 {
        return Err(ReplayRefusal::LogBad { offset });
    }
    let (count, rest) = count_at(bytes);
    if rest.len() < count {
        return Err(ReplayRefusal::LogBad { offset });
    }
    let (payload, rest) = rest.split_at(count);
    match decode(alloc, payload) {
        Ok(logged) => Ok((logged, rest)),
        Err(refusal) => Err(unread(offset, refusal)),
    }
}

/// The records whose frames the bytes are.
fn records_in(alloc: Global, bytes: &[u8]) -> Result<Vec<LogRecord>, ReplayRefusal>
    ensures found { IfOk result (λ records. Holds bytes.now records.items) }
    ensures no_fault { result ≢ Err ReplayRefusal.LogFault }
    ensures broken { (offset : ℕ) → result ≡ Err (ReplayRefusal.LogBad offset) → IsBroken bytes.now offset }
{
    let mut records = Vec::new(alloc);
    let mut rest = bytes;
    while !rest.is_empty() {
        let offset = (bytes.len() - rest.len()) as u64;
        let (logged, after) = frame_at(alloc, offset, rest)?;
        records.push(logged)?;
        rest = after;
    }
    Ok(records)
}

/// The records of a log, in their order; or the offset of the first frame that is none. The store holds what it held.
pub fn replay<L: LogStore>(log: &mut L, alloc: Global) -> Result<Vec<LogRecord>, ReplayRefusal>
    ensures found { IfOk result (λ records. Holds (L.held log.old) records.items) }
    ensures broken { (offset : ℕ) → result ≡ Err (ReplayRefusal.LogBad offset) → IsBroken (L.held log.old) offset }
    ensures held { L.held log.new ≡ L.held log.old }

    // It fails only where the store did.
    ensures faults { L.faults log.old ≤ L.faults log.new }
    ensures failed { IsErrOf result ReplayRefusal.LogFault → Rose (L.faults log.old) (L.faults log.new) }

    // It speaks of the bytes only where the store loaded them.
    ensures loads { L.loads log.old ≤ L.loads log.new }
    ensures loaded { OnOk result (Rose (L.loads log.old) (L.loads log.new)) }
    ensures unloaded { IsErrOf result ReplayRefusal.LogFault → L.loads log.new ≡ L.loads log.old }
    ensures loaded_broken { (offset : ℕ) → result ≡ Err (ReplayRefusal.LogBad offset) → Rose (L.loads log.old) (L.loads log.new) }
{
    let mut bytes = Vec::new(alloc);
    log.load(&mut bytes)?;
    records_in(alloc, &bytes)
}
