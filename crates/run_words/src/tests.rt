//! Words, worked by hand.
use crate::{Job, Mode, WordsRefusal, read_words};
use std::test::Fail;

const LARGEST: u64 = 9_223_372_036_854_775_807;

#[test]
fn jobs(rt: HostRuntime) {
    let sim = Job {
        mode: Mode::Sim,
        json: false,
        workers: 4,
        count: 0,
        number: 1,
    };
    let run = Job {
        mode: Mode::Run,
        ..sim
    };
    let load = Job {
        mode: Mode::Load,
        count: 3,
        ..sim
    };
    for (words, job) in [
        (["sim"].as_slice(), sim),
        (["--", "sim"].as_slice(), sim),
        (["sim", "--"].as_slice(), sim),
        (["--json", "sim"].as_slice(), Job { json: true, ..sim }),
        (["run"].as_slice(), run),
        (["run", "--json"].as_slice(), Job { json: true, ..run }),
        (["--json", "run"].as_slice(), Job { json: true, ..run }),
        (
            ["run", "--workers", "1"].as_slice(),
            Job { workers: 1, ..run },
        ),
        (
            ["run", "--workers=64"].as_slice(),
            Job { workers: 64, ..run },
        ),
        (["run", "--workers=+04"].as_slice(), run),
        (["load", "--count=3"].as_slice(), load),
        (
            ["load", "--count", "1"].as_slice(),
            Job { count: 1, ..load },
        ),
        (
            ["--count=10000", "load"].as_slice(),
            Job {
                count: 10_000,
                ..load
            },
        ),
        (
            ["load", "--number", "0", "--count=3"].as_slice(),
            Job { number: 0, ..load },
        ),
        (
            [
                "load",
                "--count=3",
                "--number=9223372036854775807",
                "--json",
            ]
            .as_slice(),
            Job {
                json: true,
                number: LARGEST,
                ..load
            },
        ),
    ] {
        assert_eq!(rt; read_words(rt.alloc(), words), Ok(job));
    }
}

#[test]
fn no_jobs(rt: HostRuntime) {
    assert_eq!(rt; read_words(rt.alloc(), &[]), Err(WordsRefusal::Usage));
    for words in [
        [""].as_slice(),
        ["Sim"].as_slice(),
        ["help"].as_slice(),
        ["--help"].as_slice(),
        ["-h"].as_slice(),
        ["--version"].as_slice(),
        ["-V"].as_slice(),
        ["sim", "sim"].as_slice(),
        ["", "sim"].as_slice(),
        ["sim", "--json", "--json"].as_slice(),
        ["sim", "--json=true"].as_slice(),
        ["sim", "-json"].as_slice(),
        ["sim", "--js"].as_slice(),
        ["--", "sim", "--json"].as_slice(),
        ["sim", "--workers=4"].as_slice(),
        ["sim", "--count=3"].as_slice(),
        ["sim", "--number=1"].as_slice(),
        ["run", "--workers=0"].as_slice(),
        ["run", "--workers=65"].as_slice(),
        ["run", "--workers=-0"].as_slice(),
        ["run", "--workers", "-1"].as_slice(),
        ["run", "--workers", "-"].as_slice(),
        ["run", "--workers="].as_slice(),
        ["run", "--workers"].as_slice(),
        ["run", "--workers=4 "].as_slice(),
        ["run", "--workers=0x4"].as_slice(),
        ["run", "--workers=4", "--workers=4"].as_slice(),
        ["run", "--workers", "4", "4"].as_slice(),
        ["run", "--count=3"].as_slice(),
        ["run", "--number=1"].as_slice(),
        ["load"].as_slice(),
        ["load", "--number=1"].as_slice(),
        ["load", "--count=0"].as_slice(),
        ["load", "--count=10001"].as_slice(),
        ["load", "--count=3", "--workers=4"].as_slice(),
        ["load", "--count=3", "--number=-0"].as_slice(),
        ["load", "--count=3", "--number=9223372036854775808"].as_slice(),
        ["load", "--count=3", "--number=18446744073709551616"].as_slice(),
    ] {
        assert_eq!(rt; read_words(rt.alloc(), words), Err(WordsRefusal::Usage));
    }
}

#[test]
fn tells_why(rt: HostRuntime) -> Result<(), Fail> {
    let text = format!(in rt.alloc(); "{}", WordsRefusal::Usage)?;
    assert_eq!(rt; text.as_str(), "the words ask for no job");
    Ok(())
}
