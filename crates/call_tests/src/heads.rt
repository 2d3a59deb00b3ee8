//! Heads, worked by hand.
use cluster_config::{HeadRefusal, read_head, write_head};
use std::test::Fail;
use txn_data::{Config, Schedule};

// The numbers of a configuration, as the test below lists them.
fn numbers(config: &Config) -> [u64; 7] {
    [
        config.nodes as u64,
        config.tablets as u64,
        config.status as u64,
        config.skew_us,
        config.lease_us,
        config.number,
        config.passes as u64,
    ]
}

#[test]
fn numbers_in_range(rt: HostRuntime) -> Result<(), Fail> {
    let left_out = [1, 1, 1, 500_000, 2_000_000, 0, 0];
    for (text, key, value) in [
        ("", 0, 1),
        ("nodes = 1", 0, 1),
        ("nodes = 16", 0, 16),
        ("tablets = 1", 1, 1),
        ("tablets = 64", 1, 64),
        ("status = 1", 2, 1),
        ("status = 16", 2, 16),
        ("skew_us = 0", 3, 0),
        ("skew_us = 10000000", 3, 10_000_000),
        ("lease_us = 1", 4, 1),
        ("lease_us = 60000000", 4, 60_000_000),
        ("number = 0", 5, 0),
        ("number = 9223372036854775807", 5, 9_223_372_036_854_775_807),
        ("passes = 0", 6, 0),
        ("passes = 1000", 6, 1_000),
        ("nodes = +2", 0, 2),
        ("nodes = 0x2", 0, 2),
        ("nodes = 1_0", 0, 10),
        ("number = -0", 5, 0),
        ("\"no\\x64es\" = 2", 0, 2),
        ("\u{feff}nodes = 2", 0, 2),
        ("nodes = 2\r\n", 0, 2),
    ] {
        let mut expected = left_out;
        assert!(rt; key < 7);
        expected[key] = value;
        let config = read_head(rt.alloc(), text)?;
        assert_eq!(rt; numbers(&config), expected, "{text}");
    }
    Ok(())
}

#[test]
fn readings_and_schedules(rt: HostRuntime) -> Result<(), Fail> {
    for (text, readings, schedule) in [
        ("", [1_000_000].as_slice(), Schedule::Serial),
        (
            "nodes = 2\nschedule = \"go\"",
            [1_000_000, 1_000_000].as_slice(),
            Schedule::Go,
        ),
        (
            "nodes = 2\nstart_us = [\n  0,\n  9223372036854775807,\n]\nschedule = \"\\x64rawn\"",
            [0, 9_223_372_036_854_775_807].as_slice(),
            Schedule::Drawn,
        ),
        (
            "schedule = \"serial\"\nstart_us = [7]",
            [7].as_slice(),
            Schedule::Serial,
        ),
    ] {
        let config = read_head(rt.alloc(), text)?;
        assert_eq!(rt; config.start_us.items(), readings, "{text}");
        assert_eq!(rt; config.schedule, schedule, "{text}");
    }
    Ok(())
}

#[test]
fn refused(rt: HostRuntime) {
    for (text, refusal) in [
        ("nodes = ", HeadRefusal::HeadText),
        ("nodes = 1\nnodes = 1", HeadRefusal::HeadText),
        ("other = 1\nnodes = 0\nnodes", HeadRefusal::HeadText),
        ("number = 9223372036854775808", HeadRefusal::HeadText),
        ("nodes = 1e400", HeadRefusal::HeadText),
        (
            "nodes = [[[[[[[[[[[[[[[[[[[[[[[[[[[[[[[[[[[[[[[[[\
             [[[[[[[[[[[[[[[[[[[[[[[[[[[[[[[[[[[[[[[[]]]]]]]]]]]]]]]]]]]]]]]]]]]]]]]]]]]]]]]]\
             ]]]]]]]]]]]]]]]]]]]]]]]]]]]]]]]]]]]]]]]]]",
            HeadRefusal::HeadText,
        ),
        ("nodes = 0\nother = 1", HeadRefusal::HeadKey),
        ("Nodes = 1", HeadRefusal::HeadKey),
        ("[other]", HeadRefusal::HeadKey),
        ("nodes = 0", HeadRefusal::HeadValue),
        ("nodes = 17", HeadRefusal::HeadValue),
        ("nodes = -1", HeadRefusal::HeadValue),
        ("nodes = 1.0", HeadRefusal::HeadValue),
        ("nodes = \"1\"", HeadRefusal::HeadValue),
        ("nodes = 07:32", HeadRefusal::HeadValue),
        ("nodes = {other = 1,}", HeadRefusal::HeadValue),
        ("nodes.other = 1", HeadRefusal::HeadValue),
        ("[nodes]", HeadRefusal::HeadValue),
        ("[[passes]]", HeadRefusal::HeadValue),
        ("tablets = 0", HeadRefusal::HeadValue),
        ("tablets = 65", HeadRefusal::HeadValue),
        ("status = 0", HeadRefusal::HeadValue),
        ("status = 17", HeadRefusal::HeadValue),
        ("skew_us = -1", HeadRefusal::HeadValue),
        ("skew_us = 10000001", HeadRefusal::HeadValue),
        ("lease_us = 0", HeadRefusal::HeadValue),
        ("lease_us = 60000001", HeadRefusal::HeadValue),
        ("number = -1", HeadRefusal::HeadValue),
        ("passes = -1", HeadRefusal::HeadValue),
        ("passes = 1001", HeadRefusal::HeadValue),
        ("start_us = 7", HeadRefusal::HeadValue),
        ("start_us = []", HeadRefusal::HeadValue),
        ("start_us = [-1]", HeadRefusal::HeadValue),
        ("start_us = [1, 2]", HeadRefusal::HeadValue),
        ("nodes = 2\nstart_us = [1]", HeadRefusal::HeadValue),
        ("schedule = \"Go\"", HeadRefusal::HeadValue),
        ("schedule = 1", HeadRefusal::HeadValue),
    ] {
        assert_eq!(rt; read_head(rt.alloc(), text).err(), Some(refusal), "{text}");
    }
}

#[test]
fn writes(rt: HostRuntime) -> Result<(), Fail> {
    let alloc = rt.alloc();
    let config = read_head(alloc, "nodes = 2\nstart_us = [0, 7]\nschedule = \"go\"")?;
    assert_eq!(rt;
        write_head(alloc, &config)?.as_str(),
        "lease_us = 2000000\nnodes = 2\nnumber = 0\npasses = 0\nschedule = \"go\"\nskew_us = 500000\n\
         start_us = [0, 7]\nstatus = 1\ntablets = 1\n"
    );
    Ok(())
}

#[test]
fn tells_why(rt: HostRuntime) -> Result<(), Fail> {
    let text = format!(in rt.alloc(); "{}", HeadRefusal::HeadKey)?;
    assert_eq!(rt; text.as_str(), "the head has an unknown key");
    Ok(())
}
