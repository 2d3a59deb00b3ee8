//! Each public call once, with ample memory. What they answer is worked by hand in the lines of `docdb_actor`.
use doc_path::Path;
use docdb_base::Seq;
use hybrid_time::HybridTime;
use intent_records::Intents;
use std::alloc::Global;
use std::collections::BTreeSet;
use std::test::Fail;
use txn_types::{Isolation, Meta, Op, Paths, Provisional, TxnId};

const ONE: TxnId = TxnId { number: 1 };

const OTHER: TxnId = TxnId { number: 2 };

// One transaction has a provisional write, at this path.
fn with_one(alloc: Global, path: &Path) -> Result<Intents, Fail> {
    let mut intents = Intents::new(alloc);
    let meta = Meta {
        txn: ONE,
        status: 0,
        isolation: Isolation::Snapshot,
        priority: 0,
    };
    intents.add(&meta, 0, path, &Op::Delete, HybridTime::of(3, 0))?;
    Ok(intents)
}

#[test]
fn tells_of_one(rt: HostRuntime) -> Result<(), Fail> {
    let path = Path::of(rt.alloc(), "k".as_bytes())?;
    let intents = with_one(rt.alloc(), &path)?;
    assert!(rt; intents.meta(ONE).is_some());
    assert_eq!(rt; intents.txns()?.items().len(), 1);
    assert_eq!(rt; intents.conflicting(&path, OTHER)?.items().len(), 1);
    let mut paths = Paths::new(rt.alloc());
    paths.push(path)?;
    let until = HybridTime::of(3, 0);
    assert_eq!(rt;
        intents.related_until(&paths, None, until)?.items().len(),
        1
    );
    Ok(())
}

#[test]
fn gives_and_takes_one(rt: HostRuntime) -> Result<(), Fail> {
    let path = Path::of(rt.alloc(), "k".as_bytes())?;
    let mut intents = with_one(rt.alloc(), &path)?;
    assert_eq!(rt; intents.records_of(ONE)?.len(), 1);
    let mut paths = Paths::new(rt.alloc());
    paths.push(path)?;
    let mut txns = BTreeSet::new(rt.alloc());
    txns.insert(ONE)?;
    assert_eq!(rt; intents.related_of(&paths, &txns)?.len(), 1);
    assert_eq!(rt; intents.take_of(ONE)?.len(), 1);
    intents.drop_of(ONE);
    assert!(rt; intents.meta(ONE).is_none());
    Ok(())
}

// A provisional write in short: its path of one part, its transaction, its time in microseconds, its number, and whether it
// deletes.
type InShort<'a> = (&'a [u8], u128, u64, u32, bool);

fn in_short(record: &Provisional) -> InShort<'_> {
    let deletes = match record.op {
        Op::Delete => true,
        Op::Put(_) => false,
    };
    let first: &[u8] = if record.path.parts() == 1 {
        record.path.part(0)
    } else {
        b""
    };
    (
        first,
        record.txn.number,
        record.wrote.micros(),
        record.number,
        deletes,
    )
}

#[test]
fn gives_and_takes_whole_records(rt: HostRuntime) -> Result<(), Fail> {
    let path = Path::of(rt.alloc(), "k".as_bytes())?;
    let mut intents = with_one(rt.alloc(), &path)?;
    let meta = |txn| Meta {
        txn,
        status: 0,
        isolation: Isolation::Snapshot,
        priority: 0,
    };
    let put = Op::Put(Seq::of("v".as_bytes().to_vec(rt.alloc())?));
    intents.add(&meta(OTHER), 0, &path, &put, HybridTime::of(4, 0))?;
    intents.add(&meta(ONE), 1, &path, &put, HybridTime::of(5, 0))?;
    let expected = [(b"k", 1, 3, 0, true), (b"k", 1, 5, 1, false)];
    for list in [intents.records_of(ONE)?, intents.take_of(ONE)?] {
        assert_eq!(rt; list.len(), 2);
        for (record, (path, txn, micros, number, deletes)) in list.iter().zip(expected) {
            assert!(rt; in_short(record) == (path, txn, micros, number, deletes));
        }
    }
    assert!(rt; intents.records_of(ONE)?.is_empty());
    let others = intents.records_of(OTHER)?;
    assert_eq!(rt; others.len(), 1);
    assert!(rt; in_short(&others[0]) == (b"k", 2, 4, 0, false));
    Ok(())
}
