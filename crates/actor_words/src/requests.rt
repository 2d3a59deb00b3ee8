//! Requests.
use crate::fates::read_fates;
use crate::lists::{read_paths, read_tablets};
use crate::not_read::NotRead;
use crate::terms::{limit_of, op_of, own_of, path_of};
use crate::words::Words;
use std::alloc::Global;
use txn_types::{Isolation, Meta, ReadKind, Request, Window};

/// The request that the words of a line spell.
pub fn read_request(alloc: Global, mut words: Words) -> Result<Request, NotRead> {
    let request = match words.next()? {
        b"list_write" => list_write(alloc, &mut words)?,
        b"write" => write(alloc, &mut words)?,
        b"single" => single(alloc, &mut words)?,
        b"list_read" => list_read(alloc, &mut words)?,
        b"collect" => collect(alloc, &mut words)?,
        b"list_intents" => Request::ListIntents,
        b"restart" => Request::Restart,
        b"commit" => commit(alloc, &mut words)?,
        name => of_txn(name, &mut words)?,
    };
    words.end()?;
    Ok(request)
}

fn list_write(alloc: Global, words: &mut Words) -> Result<Request, NotRead> {
    let txn = words.txn()?;
    let path = path_of(alloc, words.next()?)?;
    Ok(Request::ListWrite { txn, path })
}

fn write(alloc: Global, words: &mut Words) -> Result<Request, NotRead> {
    let meta = meta(words)?;
    words.expect(b"number")?;
    let number = words.small()?;
    let path = path_of(alloc, words.next()?)?;
    let op = op_of(alloc, words.next()?)?;
    words.expect(b"read")?;
    let read = words.time()?;
    words.expect(b"seen")?;
    let seen = words.time()?;
    let fates = read_fates(alloc, words)?;
    Ok(Request::Write {
        meta,
        number,
        path,
        op,
        read,
        seen,
        fates,
    })
}

fn meta(words: &mut Words) -> Result<Meta, NotRead> {
    let txn = words.txn()?;
    words.expect(b"priority")?;
    let priority = words.small()?;
    words.expect(b"status")?;
    let status = words.small()?;
    Ok(Meta {
        txn,
        status,
        isolation: Isolation::Snapshot,
        priority,
    })
}

fn single(alloc: Global, words: &mut Words) -> Result<Request, NotRead> {
    let txn = words.txn()?;
    let path = path_of(alloc, words.next()?)?;
    let op = op_of(alloc, words.next()?)?;
    words.expect(b"seen")?;
    let seen = words.time()?;
    let fates = read_fates(alloc, words)?;
    Ok(Request::Single {
        txn,
        path,
        op,
        seen,
        fates,
    })
}

fn list_read(alloc: Global, words: &mut Words) -> Result<Request, NotRead> {
    let own = own_of(words.next()?)?;
    words.expect(b"t")?;
    let t = words.time()?;
    words.expect(b"g")?;
    let g = words.time()?;
    words.expect(b"limit")?;
    let limit = limit_of(words.next()?)?;
    let paths = read_paths(alloc, words)?;
    Ok(Request::ListRead {
        own,
        paths,
        t,
        g,
        limit,
    })
}

fn collect(alloc: Global, words: &mut Words) -> Result<Request, NotRead> {
    let own = own_of(words.next()?)?;
    let kind = kind(words)?;
    words.expect(b"t")?;
    let t = words.time()?;
    let window = window(words)?;
    let paths = read_paths(alloc, words)?;
    let fates = read_fates(alloc, words)?;
    Ok(Request::Collect {
        own,
        kind,
        paths,
        t,
        window,
        fates,
    })
}

fn kind(words: &mut Words) -> Result<ReadKind, NotRead> {
    match words.next()? {
        b"get" => Ok(ReadKind::Get),
        b"scan" => Ok(ReadKind::Scan),
        _ => Err(NotRead::Form),
    }
}

fn window(words: &mut Words) -> Result<Option<Window>, NotRead> {
    words.expect(b"window")?;
    match limit_of(words.next()?)? {
        Some(g) => Ok(Some(Window {
            g,
            limit: words.time()?,
        })),
        None => Ok(None),
    }
}

fn commit(alloc: Global, words: &mut Words) -> Result<Request, NotRead> {
    let txn = words.txn()?;
    words.expect(b"floor")?;
    let floor = words.time()?;
    let tablets = read_tablets(alloc, words)?;
    Ok(Request::Commit {
        txn,
        floor,
        tablets,
    })
}

fn of_txn(name: &[u8], words: &mut Words) -> Result<Request, NotRead> {
    let txn = words.txn()?;
    match name {
        b"apply" => {
            words.expect(b"at")?;
            let at = words.time()?;
            Ok(Request::Apply { txn, at })
        }
        b"clean" => Ok(Request::Clean { txn }),
        b"begin" => {
            words.expect(b"priority")?;
            let priority = words.small()?;
            Ok(Request::Begin {
                txn,
                isolation: Isolation::Snapshot,
                priority,
            })
        }
        b"ask_fate" => {
            words.expect(b"t")?;
            let t = words.time()?;
            Ok(Request::AskFate { txn, t })
        }
        b"resolve" => {
            words.expect(b"by")?;
            let by = words.txn()?;
            words.expect(b"priority")?;
            let priority = words.small()?;
            Ok(Request::Resolve { txn, by, priority })
        }
        b"abort" => Ok(Request::Abort { txn }),
        b"applied" => {
            words.expect(b"tablet")?;
            let tablet = words.small()?;
            Ok(Request::Applied { txn, tablet })
        }
        _ => Err(NotRead::Form),
    }
}
