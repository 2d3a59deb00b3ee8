use crate::form::read_form;
use crate::form_refusal::FormRefusal;
use crate::output::{Broken, write_all};
use crate::report::{refused_script, report};
use crate::script_source::{ReadRefusal, read_source};
use doc_path::Path;
use docdb_base::Seq;
use docdb_outside::{MemSink, MemSource, SteadySource};
use hybrid_time::HybridTime;
use std::test::Fail;
use txn_types::{Actor, Command, Row, Told, ToldRefusal, TxnId};

#[test]
fn a_source_is_read_to_its_end(rt: HostRuntime) -> Result<(), Fail> {
    let alloc = rt.alloc();
    let bytes = [1, 2, 3, 4, 5];
    let mut source = MemSource::of(bytes.to_vec(alloc)?, 2, Vec::new(alloc));
    let read = read_source(alloc, &mut source).expect(&rt, "it never fails");
    assert_eq!(rt; read.as_slice(), bytes.as_slice());
    for call in 1..=4 {
        let mut source = MemSource::of(bytes.to_vec(alloc)?, 2, [call].to_vec(alloc)?);
        let refusal = read_source(alloc, &mut source).err();
        assert_eq!(rt; refusal, Some(ReadRefusal::Failed), "at call {call}");
    }
    Ok(())
}

#[test]
fn a_long_source_is_read_to_one_byte_past_the_limit(rt: HostRuntime) -> Result<(), Fail> {
    let alloc = rt.alloc();
    let mut source = SteadySource::of(vec![in alloc; 7; 16_777_218]?);
    let read = read_source(alloc, &mut source).expect(&rt, "it never fails");
    assert_eq!(rt; read.len(), 16_777_217);
    let rest = read_source(alloc, &mut source).expect(&rt, "it never fails");
    assert_eq!(rt; rest.as_slice(), [7].as_slice());
    let long = read_form(alloc, read.as_slice()).err();
    assert_eq!(rt; long, Some(FormRefusal::Later { line: 0 }));
    Ok(())
}

#[test]
fn other_forms_come_later(rt: HostRuntime) {
    let alloc = rt.alloc();
    let table: [(&[u8], u64); 24] = [
        (b"", 1),
        (b"\n---\n", 1),
        (b"--\n", 1),
        (b"---- \n", 1),
        (b"---\r\n", 1),
        (b"---\n\xff\n", 2),
        (b"---\n1: begin\n", 2),
        (b"---\n\n1: single put [;\"a\"] 1\r\n", 3),
        (b"---\n1:\tread [;\"a\"]\n", 2),
        (b"---\n1:  read [;\"a\"]\n", 2),
        (b"---\n1: read [;\"a\"] \n", 2),
        (b"---\n1: read [;\"a\"]x", 2),
        (b"---\n1: read [;\"\"]", 2),
        (b"---\n1: read [;\"abcdefghi\"]\n", 2),
        (b"---\n1: read [;\"aB\"]\n", 2),
        (b"---\n2: read [;\"a\"]\n", 2),
        (b"---\n1: single put [;\"a\"] \n", 2),
        (b"---\n1: single put [;\"a\"] 01\n", 2),
        (b"---\n1: single put [;\"a\"] -1\n", 2),
        (b"---\n1: single put [;\"a\"] 9223372036854775808\n", 2),
        (b"---\n1: single put [;\"a\"] 99999999999999999999999\n", 2),
        (b"---\n1: clock 0 999999\n", 2),
        (b"---\n1: clock 0 2000000\n1: clock 0 1999999\n", 3),
        (b"---\n1: clock 0 4000000000000001\n", 2),
    ];
    for (script, line) in table {
        let refusal = read_form(alloc, script).err();
        assert_eq!(rt; refusal, Some(FormRefusal::Later { line }), "{script:?}");
    }
}

#[test]
fn a_script_of_the_form_is_read(rt: HostRuntime) {
    let alloc = rt.alloc();
    let script =
        b"---\n1: single put [;\"abcdefgh\"] 9223372036854775807\n\n1: clock 0 4000000000000000\n1: read [;\"a\"]";
    let commands = read_form(alloc, script).expect(&rt, "it is of the form");
    assert_eq!(rt; commands.len(), 3);
    let Command::SinglePut {
        place,
        value,
        priority,
    } = &commands[0]
    else {
        panic!(rt; "a single write");
    };
    assert_eq!(rt; (place.tablet, *priority), (0, 0));
    assert_eq!(rt; place.path.parts(), 1);
    assert_eq!(rt; place.path.part(0), b"Sabcdefgh\0\0!".as_slice());
    assert_eq!(rt;
        value.items(),
        [73, 255, 255, 255, 255, 255, 255, 255, 255].as_slice()
    );
    let Command::Clock { node, micros } = &commands[1] else {
        panic!(rt; "a clock");
    };
    assert_eq!(rt; (*node, *micros), (0, 4_000_000_000_000_000));
    let Command::Read { strict, places } = &commands[2] else {
        panic!(rt; "a read");
    };
    assert_eq!(rt; (*strict, places.items().len()), (false, 1));
}

#[test]
fn bytes_are_written_whole_or_in_part(rt: HostRuntime) -> Result<(), Fail> {
    let alloc = rt.alloc();
    let none = || -> Vec<u64> { Vec::new(alloc) };
    let mut sink = MemSink::of(alloc, 9, 1, none(), none())?;
    assert_eq!(rt; write_all(&mut sink, &[1, 2, 3]), Ok(()));
    assert_eq!(rt; sink.taken(), [1, 2, 3].as_slice());
    let mut failing = MemSink::of(alloc, 9, 1, [3].to_vec(alloc)?, none())?;
    assert_eq!(rt; write_all(&mut failing, &[1, 2, 3]), Err(Broken));
    assert_eq!(rt; failing.taken(), [1, 2].as_slice());
    let mut stalling = MemSink::of(alloc, 9, 1, none(), [2].to_vec(alloc)?)?;
    assert_eq!(rt; write_all(&mut stalling, &[1, 2, 3]), Err(Broken));
    assert_eq!(rt; stalling.taken(), [1].as_slice());
    Ok(())
}

#[test]
fn a_report_has_a_line_for_each_command(rt: HostRuntime) -> Result<(), Fail> {
    let alloc = rt.alloc();
    let script =
        b"---\n1: single put [;\"a\"] 5\n1: read [;\"a\"]\n1: clock 0 1000001\n1: single put [;\"a\"] 6\n";
    let commands = read_form(alloc, script).expect(&rt, "it is of the form");
    let row = Row {
        path: Path::of(alloc, b"Sa\0\0!")?,
        value: Some(Seq::of([73, 128, 0, 0, 0, 0, 0, 0, 5].to_vec(alloc)?)),
    };
    let other = Row {
        path: Path::of(alloc, b"Sbc\0\0!")?,
        value: None,
    };
    let mut rows = Seq::new(alloc);
    rows.push(row)?;
    rows.push(other)?;
    let at = HybridTime::of(1_000_000, 7);
    let mut told = Vec::new(alloc);
    told.push(Told::Committed {
        txn: TxnId {
            number: (1 << 64) + 1,
        },
        at,
    })?;
    told.push(Told::Values {
        at,
        restarts: 2,
        rows,
    })?;
    told.push(Told::Set)?;
    told.push(Told::Refused(ToldRefusal::ClockFull {
        actor: Actor::Tablet(0),
        at,
    }))?;
    assert_eq!(rt; told.len(), commands.len());
    let passed = Told::Passed {
        applied: 0,
        cleaned: 0,
        left: 0,
    };
    let text = report(alloc, commands.as_slice(), told.as_slice(), &passed)?;
    let lines = b"1.1 single committed 00000000-0000-0001-0000-000000000001 at 1000000.7\n\
1.2 read values at 1000000.7 restarts 2: [;\"a\"]=5 [;\"bc\"]=-\n\
1.3 clock set\n\
1.4 single refused clock-full t0 1000000.7\n\
t0 last passed applied=0 cleaned=0 left=0\n\
total commands=4 ok=3 refused=1 committed=1 reads=1 restarts=2 skew=ok\n";
    assert_eq!(rt; text.as_slice(), lines.as_slice());
    let line = refused_script(alloc, 12)?;
    assert_eq!(rt; line.as_str(), "refused script 12 later\n");
    Ok(())
}
