//! Copies of values that hold all others, and the requests that take a reading.
use super::*;
use doc_path::Path;
use docdb_base::{Seq, TryCopy};
use hybrid_time::HybridTime;
use std::alloc::Global;
use std::test::Fail;

const TXN: TxnId = TxnId { number: 1 << 64 };

fn bytes(alloc: Global) -> Result<Bytes, Fail> {
    let mut bytes = Seq::new(alloc);
    bytes.push(7)?;
    Ok(bytes)
}

fn path(alloc: Global) -> Result<Path, Fail> {
    Ok(Path::of(alloc, b"k".as_slice())?)
}

fn write(alloc: Global) -> Result<Request, Fail> {
    let mut fates = Seq::new(alloc);
    fates.push(FateOf {
        txn: TXN,
        fate: Fate::Aborted,
    })?;
    Ok(Request::Write {
        meta: Meta {
            txn: TXN,
            status: 3,
            isolation: Isolation::Snapshot,
            priority: 9,
        },
        number: 2,
        path: path(alloc)?,
        op: Op::Put(bytes(alloc)?),
        read: HybridTime::of(1, 0),
        seen: HybridTime::of(2, 0),
        fates,
    })
}

#[test]
fn copies_a_trace(rt: HostRuntime) -> Result<(), Fail> {
    let alloc = rt.alloc();
    let mut entries = Seq::new(alloc);
    let event = Event::Serve {
        from: Actor::Session(1),
        request: write(alloc)?,
        reply: Reply::Met {
            at: HybridTime::of(5, 6),
            path: path(alloc)?,
        },
        time: Some(HybridTime::of(3, 0)),
        append: Append::Failed,
    };
    entries.push(Entry {
        actor: Actor::Tablet(0),
        reading: Some(11),
        event,
    })?;
    let trace = Trace { entries };
    let copy = trace.try_copy(alloc)?;
    assert_eq!(rt; copy.entries.items().len(), 1);
    let entry = &copy.entries.items()[0];
    assert_eq!(rt; entry.reading, Some(11));
    match &entry.event {
        Event::Serve {
            request: Request::Write { number, .. },
            append,
            ..
        } => {
            assert_eq!(rt; *number, 2);
            assert_eq!(rt; *append, Append::Failed);
        }
        _ => assert!(rt; false, "another event"),
    }
    Ok(())
}

#[test]
fn tells_who_takes_a_reading(rt: HostRuntime) -> Result<(), Fail> {
    let alloc = rt.alloc();
    assert!(rt; write(alloc)?.takes_time());
    let commit = Request::Commit {
        txn: TXN,
        floor: HybridTime::ZERO,
        tablets: Seq::new(alloc),
    };
    assert!(rt; commit.takes_time());
    for request in [
        Request::ListIntents,
        Request::Restart,
        Request::Abort { txn: TXN },
    ] {
        assert!(rt; !request.takes_time());
    }
    Ok(())
}
