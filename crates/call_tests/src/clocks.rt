//! Whether clocks agreed, by small histories. What was asked and told in them is left out where the answer does not look
//! at it.
use docdb_base::{Memory, Seq};
use hybrid_time::HybridTime;
use std::alloc::Global;
use std::test::Fail;
use trace_merge::clocks_agree;
use txn_types::{
    Actor, Append, Command, Entry, Event, Refusal, Reply, Request, Told, ToldRefusal, Trace, TxnId,
};

const ONE: Actor = Actor::Session(1);

const LAST: Actor = Actor::Session(1000);

const TABLET: Actor = Actor::Tablet(0);

/// What an entry records.
#[derive(Clone, Copy)]
enum What {
    Start,
    Ask,
    /// A request that is refused.
    Serve,
    Began,
    Values,
    Refused,
}

fn event_of(alloc: Global, what: What) -> Event {
    let at = HybridTime::of(1, 0);
    match what {
        What::Start => Event::Start {
            command: 1,
            line: Command::Commit,
        },
        What::Ask => Event::Ask {
            to: TABLET,
            request: Request::ListIntents,
        },
        What::Serve => Event::Serve {
            from: ONE,
            request: Request::ListIntents,
            reply: Reply::Refused(Refusal::LogFault),
            time: None,
            append: Append::Nothing,
        },
        What::Began => Event::Tell {
            command: 1,
            told: Told::Began {
                txn: TxnId { number: 1 },
                at,
            },
        },
        What::Values => Event::Tell {
            command: 1,
            told: Told::Values {
                at,
                restarts: 0,
                rows: Seq::new(alloc),
            },
        },
        What::Refused => Event::Tell {
            command: 1,
            told: Told::Refused(ToldRefusal::Memory),
        },
    }
}

fn trace_of(alloc: Global, steps: &[(Actor, Option<u64>, What)]) -> Result<Trace, Memory> {
    let mut entries = Seq::new(alloc);
    for (actor, reading, what) in steps {
        entries.push(Entry {
            actor: *actor,
            reading: *reading,
            event: event_of(alloc, *what),
        })?;
    }
    Ok(Trace { entries })
}

#[test]
fn of_nothing_clocks_agree(rt: HostRuntime) -> Result<(), Fail> {
    let trace = trace_of(rt.alloc(), &[])?;
    assert_eq!(rt; clocks_agree(&trace, 0), None);
    Ok(())
}

#[test]
fn outside_a_transaction(rt: HostRuntime) -> Result<(), Fail> {
    // The readings of a tablet before the read, the session's own, and of the tablet after its Start.
    for (before, own, after, skew, answer) in [
        (1500, 1000, 0, 500, None),
        (1501, 1000, 0, 500, Some((1, 0))),
        (0, 1000, 9000, 500, None),
        (7, 0, 0, 6, Some((1, 0))),
        (u64::MAX, u64::MAX, 0, 1, None),
        (u64::MAX, 0, 0, u64::MAX, None),
    ] {
        let trace = trace_of(
            rt.alloc(),
            &[
                (TABLET, Some(before), What::Serve),
                (LAST, None, What::Start),
                (TABLET, Some(after), What::Serve),
                (LAST, Some(own), What::Ask),
                (LAST, None, What::Values),
            ],
        )?;
        assert_eq!(rt;
            clocks_agree(&trace, skew),
            answer,
            "{before} {own} {after} {skew}"
        );
    }
    Ok(())
}

#[test]
fn inside_a_transaction(rt: HostRuntime) -> Result<(), Fail> {
    // The readings of a tablet before the begin, of the session in it, and of the tablet between it and the read.
    for (before, own, between, answer) in [
        (1500, 1000, 9000, None),
        (1501, 1000, 9000, Some((7, 0))),
        (1501, 1001, 9000, None),
    ] {
        let trace = trace_of(
            rt.alloc(),
            &[
                (TABLET, Some(before), What::Serve),
                (ONE, None, What::Start),
                (ONE, Some(own), What::Ask),
                (ONE, None, What::Began),
                (ONE, None, What::Start),
                (ONE, None, What::Refused),
                (TABLET, Some(between), What::Serve),
                (ONE, None, What::Start),
                (ONE, None, What::Ask),
                (ONE, None, What::Values),
            ],
        )?;
        assert_eq!(rt;
            clocks_agree(&trace, 500),
            answer,
            "{before} {own} {between}"
        );
    }
    Ok(())
}

#[test]
fn the_first_read_by_its_start(rt: HostRuntime) -> Result<(), Fail> {
    // The read that starts first is told last, and a read that is refused is none.
    for (end, answer) in [(What::Values, Some((2, 1))), (What::Refused, Some((3, 0)))] {
        let trace = trace_of(
            rt.alloc(),
            &[
                (TABLET, Some(1501), What::Serve),
                (Actor::Applier(0), Some(2001), What::Ask),
                (ONE, None, What::Start),
                (LAST, None, What::Start),
                (LAST, Some(1000), What::Ask),
                (LAST, None, What::Values),
                (ONE, Some(1500), What::Ask),
                (ONE, None, end),
            ],
        )?;
        assert_eq!(rt; clocks_agree(&trace, 500), answer);
    }
    Ok(())
}
