//! Logs worked by hand.
ghost use Rattle.std.specs.Prelude.{◌≡◌};
ghost use Rattle.std.specs.List.{list_all};
ghost use Rattle.log_record.specs.Spelling.{has_spelling};

use doc_path::Path;
use docdb_base::{Memory, Seq};
use docdb_outside::{FailAt, MemLog};
use hybrid_time::HybridTime;
use log_record::LogRecord;
use std::alloc::Global;
use std::process::Abort;
use std::test::Fail;
use tablet_log::{LogRefusal, ReplayRefusal, append, frames, replay};
use txn_data::{Op, TxnId};

/// A lease up to 3,000,000 microseconds, and a single write of 1 at ["a"] by session 1 at the time 1000000.0.
const BYTES: [u8; 66] = [
    0x00, 0x00, 0x00, 0x09, 0x01, 0x00, 0x00, 0x00, 0x00, 0x00, 0x2d, 0xc6, 0xc0, //
    0x00, 0x00, 0x00, 0x31, 0x05, //
    0x00, 0x00, 0x00, 0x00, 0x00, 0x00, 0x00, 0x01, 0x00, 0x00, 0x00, 0x00, 0x00, 0x00, 0x00, 0x01, //
    0x00, 0x00, 0x00, 0x00, 0xf4, 0x24, 0x00, 0x00, //
    0x01, 0x00, 0x00, 0x00, 0x05, 0x53, 0x61, 0x00, 0x00, 0x21, //
    0x01, 0x00, 0x00, 0x00, 0x09, 0x49, 0x80, 0x00, 0x00, 0x00, 0x00, 0x00, 0x00, 0x01,
];

fn lease(alloc: Global) -> Result<Vec<LogRecord>, Memory> {
    let mut records = Vec::new(alloc);
    records.push(LogRecord::Lease { until: 3_000_000 })?;
    Ok(records)
}

fn records(alloc: Global) -> Result<Vec<LogRecord>, Memory> {
    let value = b"\x49\x80\0\0\0\0\0\0\x01".as_slice().to_vec(alloc)?;
    let mut records = lease(alloc)?;
    records.push(LogRecord::Single {
        txn: TxnId {
            number: (1 << 64) + 1,
        },
        at: HybridTime::of(1_000_000, 0),
        path: Path::of(alloc, b"\x53a\0\0\x21")?,
        op: Op::Put(Seq::of(value)),
    })?;
    Ok(records)
}

fn is_spelled(logged: &LogRecord) -> bool
    ensures { result ≡ has_spelling logged.now }
{
    logged.has_spelling()
}

fn are_spelled(records: &[LogRecord]) -> bool
    ensures { result ≡ list_all has_spelling records.now }
{
    records.iter().all(is_spelled)
}

fn framed(rt: &impl Abort, alloc: Global, records: &[LogRecord]) -> Result<Vec<u8>, Memory> {
    let spelled = are_spelled(records);
    assert!(rt; spelled);
    frames(alloc, records)
}

fn appended(
    rt: &impl Abort,
    log: &mut MemLog,
    alloc: Global,
    records: &[LogRecord],
) -> Result<(), LogRefusal> {
    let spelled = are_spelled(records);
    assert!(rt; spelled);
    append(log, alloc, records)
}

/// What `replay` answers: the number of records, whose frames are the bytes again, or the refusal.
fn replayed(
    rt: &impl Abort,
    log: &mut MemLog,
    alloc: Global,
) -> Result<Result<usize, ReplayRefusal>, Fail> {
    match replay(log, alloc) {
        Ok(records) => {
            let again = framed(rt, alloc, &records)?;
            assert_eq!(rt; again.as_slice(), log.held());
            Ok(Ok(records.len()))
        }
        Err(refusal) => Ok(Err(refusal)),
    }
}

#[test]
fn two_records(rt: HostRuntime) -> Result<(), Fail> {
    let alloc = rt.alloc();
    let records = records(alloc)?;
    assert_eq!(rt; framed(&rt, alloc, &records)?.as_slice(), BYTES.as_slice());
    let mut log = MemLog::of(Vec::new(alloc), Vec::new(alloc));
    assert_eq!(rt; appended(&rt, &mut log, alloc, &records), Ok(()));
    assert_eq!(rt; log.held(), BYTES.as_slice());
    assert_eq!(rt; appended(&rt, &mut log, alloc, &lease(alloc)?), Ok(()));
    assert_eq!(rt; log.held().len(), 79);
    assert_eq!(rt; appended(&rt, &mut log, alloc, &[]), Ok(()));
    assert_eq!(rt; replayed(&rt, &mut log, alloc)?, Ok(3));
    Ok(())
}

#[test]
fn replays_by_hand(rt: HostRuntime) -> Result<(), Fail> {
    let alloc = rt.alloc();
    for (len, changed, answer) in [
        (66, None, Ok(2)),
        (65, None, Err(ReplayRefusal::LogBad { offset: 13 })),
        (16, None, Err(ReplayRefusal::LogBad { offset: 13 })),
        (13, None, Ok(1)),
        (12, None, Err(ReplayRefusal::LogBad { offset: 0 })),
        (3, None, Err(ReplayRefusal::LogBad { offset: 0 })),
        (0, None, Ok(0)),
        // A kind that is none, in the first frame and in the second.
        (
            66,
            Some((4, 0x0a)),
            Err(ReplayRefusal::LogBad { offset: 0 }),
        ),
        (
            66,
            Some((17, 0x0a)),
            Err(ReplayRefusal::LogBad { offset: 13 }),
        ),
        // A length that is one too great, and one that is one too small.
        (
            66,
            Some((3, 0x0a)),
            Err(ReplayRefusal::LogBad { offset: 0 }),
        ),
        (
            66,
            Some((16, 0x30)),
            Err(ReplayRefusal::LogBad { offset: 13 }),
        ),
    ] {
        let mut bytes = Vec::from_slice(alloc, &BYTES)?;
        bytes.truncate(len);
        if let Some((at, byte)) = changed {
            if let Some(changed) = bytes.get_mut(at) {
                *changed = byte;
            }
        }
        let mut log = MemLog::of(bytes, Vec::new(alloc));
        assert_eq!(rt;
            replayed(&rt, &mut log, alloc)?,
            answer,
            "{len} {changed:?}"
        );
    }
    Ok(())
}

/// The first append fails and is kept or lost, then a load fails; each is followed by another call.
#[test]
fn faults(rt: HostRuntime) -> Result<(), Fail> {
    let alloc = rt.alloc();
    let records = records(alloc)?;
    for (kept, held, found) in [(true, 79, 3), (false, 13, 1)] {
        let unread = FailAt {
            call: 3,
            kept: false,
        };
        let fails = [FailAt { call: 1, kept }, unread].as_slice().to_vec(alloc)?;
        let mut log = MemLog::of(Vec::new(alloc), fails);
        assert_eq!(rt;
            appended(&rt, &mut log, alloc, &records),
            Err(LogRefusal::LogFault)
        );
        assert_eq!(rt; appended(&rt, &mut log, alloc, &lease(alloc)?), Ok(()));
        assert_eq!(rt; log.held().len(), held);
        assert_eq!(rt;
            replayed(&rt, &mut log, alloc)?,
            Err(ReplayRefusal::LogFault)
        );
        assert_eq!(rt; replayed(&rt, &mut log, alloc)?, Ok(found));
    }
    Ok(())
}
