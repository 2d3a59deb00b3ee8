use super::*;
use std::process::Abort;
use std::test::Fail;

/// Reads into four zeros for each line of the table: what the call answers, and the four bytes after it.
fn reads<S: Source>(rt: &impl Abort, source: &mut S, table: &[(Result<usize, Failed>, [u8; 4])]) {
    for (answer, bytes) in table {
        let mut buf = [0; 4];
        assert_eq!(rt; source.read(&mut buf), *answer);
        assert_eq!(rt; buf, *bytes);
    }
}

/// Writes the piece of each line of the table, and compares what the call answers.
fn writes<S: Sink>(rt: &impl Abort, sink: &mut S, table: &[(&[u8], Result<usize, Failed>)]) {
    for (piece, answer) in table {
        assert_eq!(rt; sink.write(piece), *answer);
    }
}

/// Makes room for the piece of each line of the table and appends it, and compares what the call answers.
fn appends<L: LogStore>(
    rt: &impl Abort,
    log: &mut L,
    table: &[(&[u8], Result<(), Failed>)],
) -> Result<(), Fail> {
    for (piece, answer) in table {
        log.make_room(piece.len())?;
        assert_eq!(rt; log.append(piece), *answer);
    }
    Ok(())
}

#[test]
fn sources_in_memory(rt: HostRuntime) -> Result<(), Fail> {
    let alloc = rt.alloc();
    let mut scripted = MemSource::of([1, 2, 3, 4, 5].to_vec(alloc)?, 2, [2].to_vec(alloc)?);
    let table = [
        (Ok(2), [1, 2, 0, 0]),
        (Err(Failed), [0, 0, 0, 0]),
        (Ok(2), [3, 4, 0, 0]),
        (Ok(1), [5, 0, 0, 0]),
        (Ok(0), [0, 0, 0, 0]),
    ];
    reads(&rt, &mut scripted, &table);
    let mut steady = SteadySource::of([1, 2, 3, 4, 5].to_vec(alloc)?);
    let table = [
        (Ok(4), [1, 2, 3, 4]),
        (Ok(1), [5, 0, 0, 0]),
        (Ok(0), [0, 0, 0, 0]),
    ];
    reads(&rt, &mut steady, &table);
    Ok(())
}

#[test]
fn sinks_in_memory(rt: HostRuntime) -> Result<(), Fail> {
    let alloc = rt.alloc();
    let mut scripted = MemSink::of(alloc, 3, 1, [2].to_vec(alloc)?, [2, 3].to_vec(alloc)?)?;
    let table: [(&[u8], Result<usize, Failed>); 7] = [
        (&[1, 2], Ok(1)),
        (&[2, 3], Err(Failed)),
        (&[2, 3], Ok(0)),
        (&[2, 3], Ok(1)),
        (&[], Ok(0)),
        (&[3], Ok(1)),
        (&[4], Ok(0)),
    ];
    writes(&rt, &mut scripted, &table);
    assert_eq!(rt; scripted.taken(), [1, 2, 3].as_slice());
    let mut steady = SteadySink::of(alloc, 3)?;
    let table: [(&[u8], Result<usize, Failed>); 3] = [
        (&[1, 2], Ok(2)),
        (&[3, 4], Ok(1)),
        (&[4], Ok(0)),
    ];
    writes(&rt, &mut steady, &table);
    assert_eq!(rt; steady.taken(), [1, 2, 3].as_slice());
    Ok(())
}

#[test]
fn a_log_in_memory(rt: HostRuntime) -> Result<(), Fail> {
    let alloc = rt.alloc();
    let kept = FailAt {
        call: 2,
        kept: true,
    };
    let lost = FailAt {
        call: 3,
        kept: false,
    };
    let unread = FailAt {
        call: 5,
        kept: false,
    };
    let mut log = MemLog::of([1].to_vec(alloc)?, [kept, lost, unread].to_vec(alloc)?);
    let table: [(&[u8], Result<(), Failed>); 4] = [
        (&[2, 3], Ok(())),
        (&[4, 5], Err(Failed)),
        (&[6, 7], Err(Failed)),
        (&[8], Ok(())),
    ];
    appends(&rt, &mut log, &table)?;
    assert_eq!(rt; log.held(), [1, 2, 3, 4, 5, 8].as_slice());
    let mut out = [9].to_vec(alloc)?;
    assert_eq!(rt; log.load(&mut out), Err(LoadFault::Failed));
    assert_eq!(rt; log.load(&mut out), Ok(()));
    assert_eq!(rt; out.as_slice(), [9, 1, 2, 3, 4, 5, 8].as_slice());
    Ok(())
}

#[test]
fn a_reader_of_std(rt: HostRuntime) {
    let bytes: &[u8] = &[1, 2, 3, 4, 5];
    let table = [
        (Ok(4), [1, 2, 3, 4]),
        (Ok(1), [5, 0, 0, 0]),
        (Ok(0), [0, 0, 0, 0]),
    ];
    reads(&rt, &mut StdSource::of(bytes), &table);
}

#[test]
fn a_writer_of_std(rt: HostRuntime) {
    let mut bytes = Vec::new(rt.alloc());
    let table: [(&[u8], Result<usize, Failed>); 3] = [
        (&[1, 2], Ok(2)),
        (&[], Ok(0)),
        (&[3], Ok(1)),
    ];
    writes(&rt, &mut StdSink::of(&mut bytes), &table);
    assert_eq!(rt; bytes.as_slice(), [1, 2, 3].as_slice());
}
