//! Answers, lines, totals and whole reports, worked by hand.
ghost use Rattle.std.specs.Prelude.{◌≤◌, IfOk};
ghost use Rattle.txn_types.specs.Plan.{IsCluster};

use crate::counts::Counts;
use crate::laws::the_total_says_whether_clocks_agreed;
use crate::line::put_line;
use crate::reporting::{report, report_with};
use crate::told_line::ToldLine;
use crate::total::put_total;
use crate::word::word_of;
use doc_path::Path;
use docdb_base::Seq;
use hybrid_time::HybridTime;
use std::test::Fail;
use txn_types::{
    Actor, Command, Commands, Config, Entry, Event, Row, Rows, Schedule, Told, ToldRefusal, Trace,
    TxnId,
};

/// The time 1000000 with this counter.
fn at(logical: u8) -> HybridTime {
    HybridTime::of(1_000_000, u16::from(logical))
}

fn id(session: u32, serial: u64) -> TxnId {
    TxnId {
        number: u128::from(session) * 18_446_744_073_709_551_616 + u128::from(serial),
    }
}

/// The path of a document with one text as its range column, the bytes of which stand here with a 00 behind each 00.
fn path_of(rt: &HostRuntime, escaped: &[u8]) -> Result<Path, Fail> {
    let mut key = b"\x53".to_vec(rt.alloc())?;
    key.extend_from_slice(escaped)?;
    key.extend_from_slice(b"\x00\x00\x21")?;
    Ok(Path::of(rt.alloc(), key.as_slice())?)
}

/// The bytes of a quote, a backslash, 00, 1F, 20, 7E, 7F and FF, as a text spells them.
const SPECIAL: &[u8] = b"\x22\x5c\x00\x01\x1f\x20\x7e\x7f\xff";

/// The line of what is told, as JSON or plain.
fn line_of(rt: &HostRuntime, json: bool, told: &Told) -> Result<String, Fail> {
    let mut text = String::new(rt.alloc());
    put_line(
        rt.alloc(),
        &mut text,
        json,
        "1.1",
        &ToldLine { word: "put", told },
    )?;
    Ok(text)
}

/// What is told in an answer without quotes and backslashes, and its text: the text of JSON is the same.
#[test]
fn answers_by_hand(rt: HostRuntime) -> Result<(), Fail> {
    for (told, answer) in [
        (
            Told::Began {
                txn: id(1, 1),
                at: at(0),
            },
            "began 00000000-0000-0001-0000-000000000001 at 1000000.0",
        ),
        (Told::Written { at: at(1) }, "written at 1000000.1"),
        (
            Told::Committed {
                txn: id(1_000, 1_099_511_627_776),
                at: HybridTime::of(1_000_000, 4095),
            },
            "committed 00000000-0000-03e8-0000-010000000000 at 1000000.4095",
        ),
        (
            Told::Ended { txn: id(2, 17) },
            "ended 00000000-0000-0002-0000-000000000011",
        ),
        (Told::Restarted { kept: true }, "restarted kept=yes"),
        (Told::Restarted { kept: false }, "restarted kept=no"),
        (
            Told::Passed {
                applied: 2,
                cleaned: 0,
                left: 10,
            },
            "passed applied=2 cleaned=0 left=10",
        ),
        (Told::Set, "set"),
    ] {
        let plain = format!(in rt.alloc(); "1.1 put {answer}\n")?;
        let json = format!(in rt.alloc();
            "{{\"call\":\"1.1\",\"command\":\"put\",\"told\":\"{answer}\"}}\n"
        )?;
        assert_eq!(rt; line_of(&rt, false, &told)?.as_bytes(), plain.as_bytes());
        assert_eq!(rt; line_of(&rt, true, &told)?.as_bytes(), json.as_bytes());
    }
    Ok(())
}

#[test]
fn refusals_by_hand(rt: HostRuntime) -> Result<(), Fail> {
    for (refusal, answer) in [
        (
            ToldRefusal::Conflict { other: id(1, 1) },
            "conflict 00000000-0000-0001-0000-000000000001",
        ),
        (ToldRefusal::Overlap { at: at(1) }, "overlap 1000000.1"),
        (
            ToldRefusal::Aborted { by: id(2, 1) },
            "aborted 00000000-0000-0002-0000-000000000001",
        ),
        (
            ToldRefusal::LeaseHeld {
                actor: Actor::Tablet(0),
                until: 3_000_000,
            },
            "lease t0 3000000",
        ),
        (
            ToldRefusal::ClockFull {
                actor: Actor::Tablet(63),
                at: HybridTime::of(1_000_000, 4095),
            },
            "clock-full t63 1000000.4095",
        ),
        (
            ToldRefusal::ClockRange {
                actor: Actor::Session(1),
                reading: 4_000_000_000_000_001,
            },
            "clock-range 1 4000000000000001",
        ),
        (
            ToldRefusal::LogFault {
                actor: Actor::Status(15),
            },
            "log s15",
        ),
        (
            ToldRefusal::Down {
                actor: Actor::Status(0),
                since: 2,
            },
            "down s0 2",
        ),
        (ToldRefusal::NoTxn, "no-transaction"),
        (ToldRefusal::TxnOpen, "transaction-open"),
        (ToldRefusal::InDoubt, "in-doubt"),
        (ToldRefusal::Memory, "memory"),
    ] {
        let told = Told::Refused(refusal);
        let plain = format!(in rt.alloc(); "1.1 put refused {answer}\n")?;
        let json = format!(in rt.alloc();
            "{{\"call\":\"1.1\",\"command\":\"put\",\"told\":\"refused {answer}\"}}\n"
        )?;
        assert_eq!(rt; line_of(&rt, false, &told)?.as_bytes(), plain.as_bytes());
        assert_eq!(rt; line_of(&rt, true, &told)?.as_bytes(), json.as_bytes());
    }
    Ok(())
}

/// Rows with and without a value, of a path and a value with bytes that are shown otherwise, and a restart at such a path.
#[test]
fn texts_by_hand(rt: HostRuntime) -> Result<(), Fail> {
    let mut rows: Rows = Seq::new(rt.alloc());
    let none = Told::Values {
        at: at(3),
        restarts: 0,
        rows: Seq::new(rt.alloc()),
    };
    assert_eq!(rt;
        line_of(&rt, false, &none)?.as_bytes(),
        b"1.1 put values at 1000000.3 restarts 0:\n".as_slice()
    );
    rows.push(Row {
        path: path_of(&rt, b"a")?,
        value: None,
    })?;
    let mut value = b"\x53".to_vec(rt.alloc())?;
    value.extend_from_slice(SPECIAL)?;
    value.extend_from_slice(b"\x00\x00")?;
    rows.push(Row {
        path: path_of(&rt, SPECIAL)?,
        value: Some(Seq::of(value)),
    })?;
    let values = Told::Values {
        at: at(1),
        restarts: 2,
        rows,
    };
    assert_eq!(rt;
        line_of(&rt, false, &values)?.as_bytes(),
        b"1.1 put values at 1000000.1 restarts 2: [;\"a\"]=- [;\"\\\"\\\\\\x00\\x1f ~\\x7f\\xff\"]=\"\\\"\\\\\\x00\\x1f ~\\x7f\\xff\"\n".as_slice()
    );
    assert_eq!(rt;
        line_of(&rt, true, &values)?.as_bytes(),
        b"{\"call\":\"1.1\",\"command\":\"put\",\"told\":\"values at 1000000.1 restarts 2: [;\\\"a\\\"]=- [;\\\"\\\\\\\"\\\\\\\\\\\\x00\\\\x1f ~\\\\x7f\\\\xff\\\"]=\\\"\\\\\\\"\\\\\\\\\\\\x00\\\\x1f ~\\\\x7f\\\\xff\\\"\"}\n".as_slice()
    );
    let restart = Told::Refused(ToldRefusal::Restart {
        at: at(0),
        path: path_of(&rt, SPECIAL)?,
    });
    assert_eq!(rt;
        line_of(&rt, false, &restart)?.as_bytes(),
        b"1.1 put refused restart 1000000.0 [;\"\\\"\\\\\\x00\\x1f ~\\x7f\\xff\"]\n".as_slice()
    );
    assert_eq!(rt;
        line_of(&rt, true, &restart)?.as_bytes(),
        b"{\"call\":\"1.1\",\"command\":\"put\",\"told\":\"refused restart 1000000.0 [;\\\"\\\\\\\"\\\\\\\\\\\\x00\\\\x1f ~\\\\x7f\\\\xff\\\"]\"}\n".as_slice()
    );
    Ok(())
}

#[test]
fn totals_by_hand(rt: HostRuntime) -> Result<(), Fail> {
    let counts = Counts {
        commands: 12,
        ok: 8,
        refused: 4,
        committed: 3,
        reads: 2,
        restarts: 18_446_744_073_709_551_615,
    };
    let mut text = String::new(rt.alloc());
    put_total(rt.alloc(), &mut text, false, &counts, true)?;
    put_total(rt.alloc(), &mut text, true, &counts, false)?;
    assert_eq!(rt;
        text.as_bytes(),
        b"total commands=12 ok=8 refused=4 committed=3 reads=2 restarts=18446744073709551615 skew=ok\n\
        {\"commands\":12,\"committed\":3,\"ok\":8,\"reads\":2,\"refused\":4,\"restarts\":18446744073709551615,\"skew\":\"broken\"}\n"
            .as_slice()
    );
    Ok(())
}

#[test]
fn words_by_hand(rt: HostRuntime) -> Result<(), Fail> {
    for (line, word) in [
        (Command::Begin { priority: 5 }, "begin"),
        (Command::Commit, "commit"),
        (Command::Abort, "abort"),
        (
            Command::Restart {
                actor: Actor::Status(0),
            },
            "restart",
        ),
        (Command::Apply { tablet: 0 }, "apply"),
        (Command::Clock { node: 0, micros: 1 }, "clock"),
        (Command::End, "end"),
    ] {
        assert_eq!(rt; word_of(&line), word);
    }
    Ok(())
}

fn config_of(rt: &HostRuntime, tablets: u32) -> Result<Config, Fail>
    requires least { 1 ≤ tablets }
    requires most { tablets ≤ 64 }
    ensures { IfOk result IsCluster }
{
    let mut start_us = Seq::new(rt.alloc());
    start_us.push(1_000_000)?;
    Ok(Config {
        nodes: 1,
        tablets,
        status: 1,
        passes: 0,
        skew_us: 500_000,
        lease_us: 2_000_000,
        number: 0,
        start_us,
        schedule: Schedule::Serial,
    })
}

/// Records that a mover starts a command and is told this.
fn tell(trace: &mut Trace, actor: Actor, line: Command, told: Told) -> Result<(), Fail> {
    for event in [
        Event::Start { command: 1, line },
        Event::Tell { command: 1, told },
    ] {
        trace.entries.push(Entry {
            actor,
            reading: None,
            event,
        })?;
    }
    Ok(())
}

fn passed(left: u64) -> Told {
    Told::Passed {
        applied: 0,
        cleaned: 0,
        left,
    }
}

/// The report of no entries has a total alone.
#[test]
fn of_nothing(rt: HostRuntime) -> Result<(), Fail> {
    let trace = Trace {
        entries: Seq::new(rt.alloc()),
    };
    let plan = Commands {
        sessions: Seq::new(rt.alloc()),
        order: Seq::new(rt.alloc()),
        go: Seq::new(rt.alloc()),
    };
    let config = config_of(&rt, 1)?;
    let text = report(rt.alloc(), &trace, &plan, &config, false, false)?;
    assert_eq!(rt;
        text.as_slice(),
        b"total commands=0 ok=0 refused=0 committed=0 reads=0 restarts=0 skew=ok\n".as_slice()
    );
    the_total_says_whether_clocks_agreed();
    Ok(())
}

/// The report of a script without commands.
#[test]
fn of_a_pass(rt: HostRuntime) -> Result<(), Fail> {
    let mut trace = Trace {
        entries: Seq::new(rt.alloc()),
    };
    let config = config_of(&rt, 1)?;
    tell(
        &mut trace,
        Actor::Applier(0),
        Command::Apply { tablet: 0 },
        passed(0),
    )?;
    let plain = report_with(rt.alloc(), &trace, &config, false, false, true)?;
    assert_eq!(rt;
        plain.as_slice(),
        b"t0 last passed applied=0 cleaned=0 left=0\n\
        total commands=0 ok=0 refused=0 committed=0 reads=0 restarts=0 skew=ok\n"
            .as_slice()
    );
    let json = report_with(rt.alloc(), &trace, &config, true, false, true)?;
    assert_eq!(rt;
        json.as_slice(),
        b"{\"call\":\"t0\",\"command\":\"last\",\"told\":\"passed applied=0 cleaned=0 left=0\"}\n\
        {\"commands\":0,\"committed\":0,\"ok\":0,\"reads\":0,\"refused\":0,\"restarts\":0,\"skew\":\"ok\"}\n"
            .as_slice()
    );
    Ok(())
}

/// Sessions are shown by number, each with its own numbers, and of each tablet the last pass. An abort that is told
/// Committed is a commit, and an end is a command.
#[test]
fn of_sessions(rt: HostRuntime) -> Result<(), Fail> {
    let mut trace = Trace {
        entries: Seq::new(rt.alloc()),
    };
    let config = config_of(&rt, 2)?;
    let entries = &mut trace;
    tell(
        entries,
        Actor::Session(100),
        Command::Clock { node: 0, micros: 5 },
        Told::Set,
    )?;
    tell(
        entries,
        Actor::Applier(1),
        Command::Apply { tablet: 1 },
        passed(7),
    )?;
    tell(
        entries,
        Actor::Session(9),
        Command::Abort,
        Told::Committed {
            txn: id(9, 1),
            at: at(2),
        },
    )?;
    tell(
        entries,
        Actor::Session(10),
        Command::Commit,
        Told::Refused(ToldRefusal::NoTxn),
    )?;
    tell(
        entries,
        Actor::Session(9),
        Command::End,
        Told::Refused(ToldRefusal::Down {
            actor: Actor::Status(0),
            since: 3,
        }),
    )?;
    tell(
        entries,
        Actor::Applier(0),
        Command::Apply { tablet: 0 },
        passed(1),
    )?;
    tell(
        entries,
        Actor::Applier(1),
        Command::Apply { tablet: 1 },
        passed(2),
    )?;
    let text = report_with(rt.alloc(), &trace, &config, false, false, false)?;
    assert_eq!(rt;
        text.as_slice(),
        b"9.1 abort committed 00000000-0000-0009-0000-000000000001 at 1000000.2\n\
        9.2 end refused down s0 3\n\
        10.1 commit refused no-transaction\n\
        100.1 clock set\n\
        t0 last passed applied=0 cleaned=0 left=1\n\
        t1 last passed applied=0 cleaned=0 left=2\n\
        total commands=4 ok=2 refused=2 committed=1 reads=0 restarts=0 skew=broken\n"
            .as_slice()
    );
    Ok(())
}

/// A read that restarted counts, and one that may not restart is a refusal and counts no restart.
#[test]
fn of_reads(rt: HostRuntime) -> Result<(), Fail> {
    let mut trace = Trace {
        entries: Seq::new(rt.alloc()),
    };
    let config = config_of(&rt, 1)?;
    let entries = &mut trace;
    tell(
        entries,
        Actor::Session(4),
        Command::Read {
            strict: false,
            places: Seq::new(rt.alloc()),
        },
        Told::Values {
            at: at(1),
            restarts: 2,
            rows: Seq::new(rt.alloc()),
        },
    )?;
    tell(
        entries,
        Actor::Session(4),
        Command::Read {
            strict: true,
            places: Seq::new(rt.alloc()),
        },
        Told::Refused(ToldRefusal::Restart {
            at: at(0),
            path: path_of(&rt, b"a")?,
        }),
    )?;
    let text = report_with(rt.alloc(), &trace, &config, false, false, true)?;
    assert_eq!(rt;
        text.as_slice(),
        b"4.1 read values at 1000000.1 restarts 2:\n\
        4.2 read refused restart 1000000.0 [;\"a\"]\n\
        total commands=2 ok=1 refused=1 committed=0 reads=1 restarts=2 skew=ok\n"
            .as_slice()
    );
    Ok(())
}

/// The last passes of 64 tablets come by tablet, in whatever order they were made.
#[test]
fn of_64_tablets(rt: HostRuntime) -> Result<(), Fail> {
    let mut trace = Trace {
        entries: Seq::new(rt.alloc()),
    };
    let config = config_of(&rt, 64)?;
    let mut expected = Vec::new(rt.alloc());
    for tablet in 0..64u32 {
        let other = 63 - tablet;
        tell(
            &mut trace,
            Actor::Applier(other),
            Command::Apply { tablet: other },
            passed(u64::from(other)),
        )?;
        let line = format!(in rt.alloc();
            "t{tablet} last passed applied=0 cleaned=0 left={tablet}\n"
        )?;
        expected.extend_from_slice(line.as_bytes())?;
    }
    expected.extend_from_slice(
        b"total commands=0 ok=0 refused=0 committed=0 reads=0 restarts=0 skew=ok\n",
    )?;
    let text = report_with(rt.alloc(), &trace, &config, false, false, true)?;
    assert_eq!(rt; text.as_slice(), expected.as_slice());
    Ok(())
}
