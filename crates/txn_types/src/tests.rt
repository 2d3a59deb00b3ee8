//! Ids, nodes, told refusals and a recorded entry, by values worked by hand.
use super::*;
use docdb_base::Seq;
use std::test::Fail;

#[test]
fn names_actors(rt: HostRuntime) -> Result<(), Fail> {
    let mut start_us = Seq::new(rt.alloc());
    start_us.push(1_000_000)?;
    let config = Config {
        nodes: 3,
        tablets: 8,
        status: 2,
        passes: 0,
        skew_us: 500_000,
        lease_us: 2_000_000,
        number: 0,
        start_us,
        schedule: Schedule::Serial,
    };
    for (actor, node) in [
        (Actor::Tablet(4), 1),
        (Actor::Status(2), 0),
        (Actor::Session(5), 2),
        (Actor::Applier(7), 1),
    ] {
        assert_eq!(rt; node_of(&config, actor), node, "{actor:?}");
    }
    assert_eq!(rt; id_of(2, 3).number, 36_893_488_147_419_103_235);
    Ok(())
}

#[test]
fn records_and_tells(rt: HostRuntime) -> Result<(), Fail> {
    let mut trace = Trace {
        entries: Seq::new(rt.alloc()),
    };
    for number in 1..3u32 {
        let event = Event::Start {
            command: number,
            line: Command::Commit,
        };
        record(
            &mut trace,
            Entry {
                actor: Actor::Session(1),
                reading: None,
                event,
            },
        )?;
    }
    assert_eq!(rt; trace.entries.items().len(), 2);
    let told = told_refusal(Actor::Status(1), Refusal::Down { since: 4 });
    assert!(rt;
        matches!(
            told,
            ToldRefusal::Down {
                actor: Actor::Status(1),
                since: 4
            }
        )
    );
    Ok(())
}
