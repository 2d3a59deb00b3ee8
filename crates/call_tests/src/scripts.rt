//! Scripts, worked by hand.
use script_text::{ScriptRefusal, Why, read_script, write_script};
use std::test::Fail;
use txn_data::{GoLine, Mover, Schedule};

#[test]
fn reads_scripts(rt: HostRuntime) {
    let read = read_script(
        rt.alloc(),
        b"schedule = 'go'\n---\n@go 3 20\n# a\n3: put [;\"a b\"]/#1 7\n1: single put [;1] true prio=7\n",
    );
    let Ok((config, plan)) = read else {
        panic!(rt; "refused");
    };
    assert_eq!(rt; config.schedule, Schedule::Go);
    assert_eq!(rt; plan.order.items(), [3u32, 1].as_slice());
    assert_eq!(rt; plan.sessions.items().len(), 2);
    assert_eq!(rt;
        plan.go.items(),
        [GoLine {
            who: Mover::Session(3),
            count: 20
        }]
        .as_slice()
    );
    for (text, line, why) in [
        (b"".as_slice(), 0u32, Why::NoHead),
        (b"\xFF".as_slice(), 0, Why::Utf8),
        (b"a = 1\n---".as_slice(), 0, Why::HeadKey),
        (b"---\n1: jump".as_slice(), 2, Why::Command),
        (b"---\n\n01: commit\n".as_slice(), 3, Why::Session),
        (b"---\n1: put [;1]".as_slice(), 2, Why::Words),
    ] {
        let read = read_script(rt.alloc(), text);
        let refused =
            matches!(read, Err(ScriptRefusal::ScriptRefused { line: at, why: reason }) if at == line && reason == why);
        assert!(rt; refused);
    }
}

// Six commands of two sessions, written behind what stood there.
#[test]
fn writes_siblings(rt: HostRuntime) -> Result<(), Fail> {
    let read = read_script(
        rt.alloc(),
        b"---\n1: begin\n2: begin\n1: put [;\"a\"]/#1 1\n2: put [;\"a\"]/#2 2\n1: commit\n2: commit",
    );
    let Ok((config, plan)) = read else {
        panic!(rt; "refused");
    };
    let mut out = Vec::from_slice(rt.alloc(), b"=")?;
    write_script(&config, &plan, &mut out)?;
    assert_eq!(rt;
        out.as_slice(),
        b"=lease_us = 2000000\nnodes = 1\nnumber = 0\npasses = 0\nschedule = \"serial\"\nskew_us = 500000\n\
          start_us = [1000000]\nstatus = 1\ntablets = 1\n---\n\
          1: begin\n2: begin\n1: put [;\"a\"]/#1 1\n2: put [;\"a\"]/#2 2\n1: commit\n2: commit\n"
            .as_slice()
    );
    Ok(())
}

// A line of each kind, with its longest form and its shortest, and each kind of byte of a string.
#[test]
fn writes_each_kind(rt: HostRuntime) -> Result<(), Fail> {
    let text =
        b"lease_us = 1\nnodes = 2\nnumber = 9223372036854775807\npasses = 3\nschedule = \"go\"\nskew_us = 0\n\
        start_us = [0, 7]\nstatus = 4\ntablets = 2\n---\n\
        2: begin prio=4294967295\n\
        1000: single put [true,-1;0,\"a b\"]/false/#0 \"\\\"\\\\\\x00~\\x7f\\xff\" prio=1\n\
        2: put [;-9223372036854775808] 9223372036854775807\n\
        2: del [\"\";]\n\
        2: read [;1] [;1]/#4294967295\n\
        2: read norestart [;1]\n\
        1000: scan [;1]\n\
        2: scan norestart [;1]\n\
        2: commit\n\
        2: abort\n\
        2: single del [;1]\n\
        2: restart t1\n\
        2: restart s3\n\
        2: apply t0\n\
        2: clock 1 9223372036854775807\n\
        @go 1000 1\n\
        @go a1 1000000\n"
            .as_slice();
    let Ok((config, plan)) = read_script(rt.alloc(), text) else {
        panic!(rt; "refused");
    };
    let mut out = Vec::new(rt.alloc());
    write_script(&config, &plan, &mut out)?;
    assert_eq!(rt; out.as_slice(), text);
    Ok(())
}
