use crate::sim::sim_main;
use docdb_base::{Memory, Seq};
use docdb_outside::{MemLog, MemSink, MemSource, Sink, Source, SteadySink, SteadySource};
use std::alloc::Global;
use std::test::Fail;
use txn_types::Trace;

/// Serves the words with this source and sink, and gives the status.
fn served(alloc: Global, words: &[&str], source: &mut impl Source, sink: &mut impl Sink) -> u8 {
    let mut logs: Vec<MemLog> = Vec::new(alloc);
    let mut trace = Trace {
        entries: Seq::new(alloc),
    };
    sim_main(alloc, words, source, sink, &mut logs, &mut trace)
}

/// The status and what is written where nothing fails.
fn run(alloc: Global, words: &[&str], script: &[u8]) -> Result<(u8, Vec<u8>), Memory> {
    let mut source = SteadySource::of(script.to_vec(alloc)?);
    let mut sink = SteadySink::of(alloc, 1 << 22)?;
    let status = served(alloc, words, &mut source, &mut sink);
    Ok((status, sink.taken().to_vec(alloc)?))
}

const TWO_SINGLES: &[u8] =
    b"---\n1: single put [;\"a\"] 1\n1: single put [;\"a\"] 2\n1: read [;\"a\"]\n";

const TWO_SINGLES_REPORT: &[u8] =
    b"1.1 single committed 00000000-0000-0001-0000-000000000001 at 1000000.0\n\
1.2 single committed 00000000-0000-0001-0000-000000000002 at 1000000.1\n\
1.3 read values at 1000000.1 restarts 0: [;\"a\"]=2\n\
t0 last passed applied=0 cleaned=0 left=0\n\
total commands=3 ok=3 refused=0 committed=2 reads=1 restarts=0 skew=ok\n";

#[test]
fn worked_rows(rt: HostRuntime) -> Result<(), Fail> {
    let alloc = rt.alloc();
    // the words, the script, the status, what is written
    let rows: [(&[&str], &[u8], u8, &[u8]); 10] = [
        (
            &["sim"],
            b"---\n",
            0,
            b"t0 last passed applied=0 cleaned=0 left=0\n\
total commands=0 ok=0 refused=0 committed=0 reads=0 restarts=0 skew=ok\n",
        ),
        (&["sim"], TWO_SINGLES, 0, TWO_SINGLES_REPORT),
        (
            &["sim"],
            b"---\n1: single put [;\"b\"] 1\n1: clock 0 2000000\n1: read [;\"a\"]\n1: read [;\"b\"]\n",
            0,
            b"1.1 single committed 00000000-0000-0001-0000-000000000001 at 1000000.0\n\
1.2 clock set\n\
1.3 read values at 2000000.0 restarts 0: [;\"a\"]=-\n\
1.4 read values at 2000000.0 restarts 0: [;\"b\"]=1\n\
t0 last passed applied=0 cleaned=0 left=0\n\
total commands=4 ok=4 refused=0 committed=1 reads=2 restarts=0 skew=ok\n",
        ),
        (&["sim"], b"---\n1: begin\n", 1, b"refused script 2 later\n"),
        (&["sim"], b"", 1, b"refused script 1 later\n"),
        (
            &["sim"],
            b"nodes = 2\n---\n",
            1,
            b"refused script 1 later\n",
        ),
        (&["sim"], b"---\n\xff\n", 1, b"refused script 2 later\n"),
        (&[], TWO_SINGLES, 2, b"refused words\n"),
        (&["sim", "extra"], TWO_SINGLES, 2, b"refused words\n"),
        (&["run"], TWO_SINGLES, 2, b"refused words\n"),
    ];
    for (words, script, status, written) in rows {
        let told = run(alloc, words, script)?;
        assert_eq!(rt; told.0, status, "{script:?}");
        assert_eq!(rt; told.1.as_slice(), written, "{script:?}");
    }
    Ok(())
}

#[test]
fn a_tablet_gives_4096_times_at_one_reading(rt: HostRuntime) -> Result<(), Fail> {
    let alloc = rt.alloc();
    let mut script = b"---\n".to_vec(alloc)?;
    for _ in 0..4097 {
        script.extend_from_slice(b"1: single put [;\"a\"] 1\n")?;
    }
    let told = run(alloc, &["sim"], script.as_slice())?;
    assert_eq!(rt; told.0, 0);
    let end = b"\n1.4096 single committed 00000000-0000-0001-0000-000000001000 at 1000000.4095\n\
1.4097 single refused clock-full t0 1000000.4095\n\
t0 last passed applied=0 cleaned=0 left=0\n\
total commands=4097 ok=4096 refused=1 committed=4096 reads=0 restarts=0 skew=ok\n";
    assert_eq!(rt; told.1.ends_with(end), true);
    Ok(())
}

#[test]
fn a_script_has_100_000_commands_at_most(rt: HostRuntime) -> Result<(), Fail> {
    let alloc = rt.alloc();
    // the commands, the status, the end of what is written
    let table: [(u32, u8, &[u8]); 2] = [
        (
            100_000,
            0,
            b"\n1.100000 clock set\n\
t0 last passed applied=0 cleaned=0 left=0\n\
total commands=100000 ok=100000 refused=0 committed=0 reads=0 restarts=0 skew=ok\n",
        ),
        (100_001, 1, b"refused script 100002 later\n"),
    ];
    for (commands, status, end) in table {
        let mut script = b"---\n".to_vec(alloc)?;
        for _ in 0..commands {
            script.extend_from_slice(b"1: clock 0 1000000\n")?;
        }
        let told = run(alloc, &["sim"], script.as_slice())?;
        assert_eq!(rt; told.0, status, "{commands}");
        assert_eq!(rt; told.1.ends_with(end), true, "{commands}");
    }
    Ok(())
}

#[test]
fn an_outside_that_fails(rt: HostRuntime) -> Result<(), Fail> {
    let alloc = rt.alloc();
    // the read that fails, the write that fails, the write that takes nothing, the status, how much is written
    let table: [(u64, u64, u64, u8, &[u8]); 7] = [
        (0, 0, 0, 0, TWO_SINGLES_REPORT),
        (1, 0, 0, 4, b"refused read\n"),
        (20, 0, 0, 4, b"refused read\n"),
        (0, 1, 0, 5, b""),
        (0, 12, 0, 5, &TWO_SINGLES_REPORT[..11]),
        (0, 0, 12, 5, &TWO_SINGLES_REPORT[..11]),
        (1, 0, 3, 5, b"re"),
    ];
    for (read, write, stall, status, written) in table {
        let mut source = MemSource::of(TWO_SINGLES.to_vec(alloc)?, 2, [read].to_vec(alloc)?);
        let mut sink = MemSink::of(
            alloc,
            4096,
            1,
            [write].to_vec(alloc)?,
            [stall].to_vec(alloc)?,
        )?;
        let told = served(alloc, &["sim"], &mut source, &mut sink);
        assert_eq!(rt; told, status, "{read} {write} {stall}");
        assert_eq!(rt; sink.taken(), written, "{read} {write} {stall}");
    }
    Ok(())
}
