//! The frames of records, and their append.
ghost use Rattle.std.specs.Prelude.{◌≡◌, ◌≤◌, ◌-◌, ◌^◌, ◌⊎◌, ◌++◌, [], length, min, take, IfOk, OnOk, OnErr, IsErrOf, IsTrue};
ghost use Rattle.std.specs.List.{list_all};
ghost use Rattle.docdb_outside.specs.Count.{Rose};
ghost use Rattle.log_record.specs.Spelling.{has_spelling};
ghost use Rattle.tablet_log.specs.Frames.{frame, frames};

use crate::log_refusal::LogRefusal;
use docdb_base::Memory;
use docdb_outside::LogStore;
use log_record::{LogRecord, spellings_are_short};
use std::alloc::Global;

#[tactic(auto, unfolding(log_record::specs::Spelling::u32_spelling))]
fn append_frame(logged: &LogRecord, out: &mut Vec<u8>) -> Result<(), Memory>
    requires { IsTrue (has_spelling logged.now) }
    ensures { OnOk result (out.new.items ≡ out.old.items ++ frame logged.now) }
{
    spellings_are_short();
    out.extend_from_slice(&(logged.encoded_len() as u32).to_be_bytes())?;
    logged.encode(out)
}

/// How many bytes the frames of these records have.
fn frames_len(records: &[LogRecord]) -> usize
    requires { IsTrue (list_all has_spelling records.now) }
    ensures { result ≡ min (length (frames records.now)) (2 ^ 64 - 1) }
{
    spellings_are_short();
    let mut len: usize = 0;
    for logged in records {
        len = len.saturating_add(4 + logged.encoded_len());
    }
    len
}

/// The frames of these records, as `append` hands them over.
pub fn frames(alloc: Global, records: &[LogRecord]) -> Result<Vec<u8>, Memory>
    requires { IsTrue (list_all has_spelling records.now) }
    ensures { IfOk result (λ bytes. bytes.items ≡ frames records.now) }
{
    let mut bytes = Vec::with_capacity(alloc, frames_len(records))?;
    for logged in records {
        append_frame(logged, &mut bytes)?;
    }
    Ok(bytes)
}

/// Puts the frames of these records at the end of a log, in one append of the store. After a fault of the store all of
/// them are held, or none.
pub fn append<L: LogStore>(
    log: &mut L,
    alloc: Global,
    records: &[LogRecord],
) -> Result<(), LogRefusal>
    requires { IsTrue (list_all has_spelling records.now) }
    ensures ok { OnOk result (L.held log.new ≡ L.held log.old ++ frames records.now) }
    ensures all_or_none { OnErr result
        ((L.held log.new ≡ L.held log.old) ⊎ (L.held log.new ≡ L.held log.old ++ frames records.now)) }
    ensures loads { L.loads log.new ≡ L.loads log.old }

    // It fails only where the store did.
    ensures faults { L.faults log.old ≤ L.faults log.new }
    ensures failed { IsErrOf result LogRefusal.LogFault → Rose (L.faults log.old) (L.faults log.new) }

    // Out of memory changes nothing.
    ensures memory_held { IsErrOf result LogRefusal.Memory → L.held log.new ≡ L.held log.old }
    ensures memory_faults { IsErrOf result LogRefusal.Memory → L.faults log.new ≡ L.faults log.old }
    ensures memory_room { IsErrOf result LogRefusal.Memory → L.room log.new ≡ L.room log.old }
{
    let bytes = frames(alloc, records)?;
    log.make_room(bytes.len())?;
    log.append(&bytes)?;
    Ok(())
}
