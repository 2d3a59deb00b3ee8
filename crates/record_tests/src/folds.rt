//! Answers worked by hand. A text stands for the path of its parts between slashes.
use doc_fold::{fold_get, fold_scan};
use doc_path::Path;
use docdb_base::Seq;
use hybrid_time::HybridTime;
use std::alloc::Global;
use std::test::Fail;
use txn_types::{Bytes, CommittedTxn, Op, TxnId, Writes, Written};
use value_cases::VALUE_CASES;

fn path(alloc: Global, text: &str) -> Result<Path, Fail> {
    let mut parts = text.split('/');
    let first = parts.next().ok_or("no part")?;
    let mut path = Path::of(alloc, first.as_bytes())?;
    for part in parts {
        path.push(part.as_bytes())?;
    }
    Ok(path)
}

fn path_text(alloc: Global, path: &Path) -> Result<String, Fail> {
    let mut text = String::new(alloc);
    for i in 0..path.parts() {
        if i > 0 {
            text.push('/')?;
        }
        for byte in path.part(i) {
            text.push(char::from(*byte))?;
        }
    }
    Ok(text)
}

fn time(micros: u64) -> Result<HybridTime, Fail> {
    if micros >= 1000 {
        return Err("too late".into());
    }
    Ok(HybridTime::of(micros, 0))
}

fn number(text: &str) -> Result<u64, Fail> {
    Ok(text.parse().map_err(|_| "no number")?)
}

/// The write of a word `PATH@COMMIT.NUMBER=VALUE`, with `-` for a delete, where it has this commit time and number.
fn write_at(alloc: Global, word: &str, at: u64, numbered: u64) -> Result<Option<Written>, Fail> {
    let (place, rest) = word.split_once('@').ok_or("no time")?;
    let (moment, value) = rest.split_once('=').ok_or("no value")?;
    let (micros, digits) = moment.split_once('.').ok_or("no number")?;
    if number(micros)? != at || number(digits)? != numbered {
        return Ok(None);
    }
    let op = match value {
        "-" => Op::Delete,
        value => Op::Put(Seq::of(value.as_bytes().to_vec(alloc)?)),
    };
    let path = path(alloc, place)?;
    Ok(Some(Written { path, op }))
}

/// One transaction for each of these commit times, the latest first.
fn committed(alloc: Global, text: &str) -> Result<Vec<CommittedTxn>, Fail> {
    let mut list = Vec::new(alloc);
    for at in [30u64, 20, 10] {
        let mut writes = Writes::new(alloc);
        for numbered in 0..8 {
            for word in text.split_whitespace() {
                if let Some(write) = write_at(alloc, word, at, numbered)? {
                    writes.push(write)?;
                }
            }
        }
        list.push(CommittedTxn {
            txn: TxnId {
                number: u128::from(at),
            },
            at: time(at)?,
            writes,
        })?;
    }
    Ok(list)
}

fn value_text(alloc: Global, value: Option<Bytes>) -> Result<String, Fail> {
    let mut text = String::new(alloc);
    match value {
        None => text.push('-')?,
        Some(bytes) => {
            for byte in bytes.items() {
                text.push(char::from(*byte))?;
            }
        }
    }
    Ok(text)
}

#[test]
fn gets_and_scans(rt: HostRuntime) -> Result<(), Fail> {
    for (text, place, micros, value, rows) in VALUE_CASES {
        let list = committed(rt.alloc(), text)?;
        let place = path(rt.alloc(), place)?;
        let t = time(micros)?;
        let got = value_text(rt.alloc(), fold_get(rt.alloc(), &list, t, &place)?)?;
        assert_eq!(rt; got.as_str(), value, "{text} {micros}");
        let mut told = String::new(rt.alloc());
        for row in fold_scan(rt.alloc(), &list, t, &place)?.into_items() {
            if told.len() > 0 {
                told.push(' ')?;
            }
            told.push_str(path_text(rt.alloc(), &row.path)?.as_str())?;
            told.push('=')?;
            told.push_str(value_text(rt.alloc(), row.value)?.as_str())?;
        }
        assert_eq!(rt; told.as_str(), rows, "{text} {micros}");
    }
    Ok(())
}

fn single(alloc: Global, number: u128, value: &[u8]) -> Result<CommittedTxn, Fail> {
    let mut writes = Writes::new(alloc);
    writes.push(Written {
        path: path(alloc, "k")?,
        op: Op::Put(Seq::of(value.to_vec(alloc)?)),
    })?;
    Ok(CommittedTxn {
        txn: TxnId { number },
        at: time(10)?,
        writes,
    })
}

/// Where commit times are equal the greatest id counts.
#[test]
fn ids_decide_a_tie(rt: HostRuntime) -> Result<(), Fail> {
    let mut list = Vec::new(rt.alloc());
    list.push(single(rt.alloc(), 7, b"b")?)?;
    list.push(single(rt.alloc(), 4, b"a")?)?;
    let place = path(rt.alloc(), "k")?;
    let got = fold_get(rt.alloc(), &list, time(10)?, &place)?;
    assert_eq!(rt; value_text(rt.alloc(), got)?.as_str(), "b");
    Ok(())
}

/// A transaction puts one subkey of a document, reads two of them, and deletes the document: its own writes are the newest.
#[test]
fn own_writes_are_folded(rt: HostRuntime) -> Result<(), Fail> {
    for (writes, place, value) in [
        ("a/1@10.0=1", "a/1", "1"),
        ("a/1@10.0=1", "a/2", "-"),
        ("a/1@10.0=1 a@10.1=-", "a/1", "-"),
    ] {
        let own = committed(rt.alloc(), writes)?;
        let place = path(rt.alloc(), place)?;
        let got = fold_get(rt.alloc(), &own, time(10)?, &place)?;
        assert_eq!(rt; value_text(rt.alloc(), got)?.as_str(), value, "{writes}");
    }
    Ok(())
}
