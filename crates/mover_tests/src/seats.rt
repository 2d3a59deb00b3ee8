//! A session and an applier through a few lines, by entries worked by hand.
ghost use Rattle.txn_types.specs.Plan.{IsCluster};

use docdb_base::Seq;
use mover_seat::{ApplierSeat, Moved, SessionSeat, Step};
use std::alloc::Global;
use std::test::Fail;
use txn_types::{
    Actor, Command, Config, Event, Refusal, Reply, Request, Schedule, Told, ToldRefusal,
};

fn cluster(alloc: Global) -> Config
    ensures { IsCluster result }
{
    Config {
        nodes: 1,
        tablets: 1,
        status: 1,
        passes: 1,
        skew_us: 500_000,
        lease_us: 2_000_000,
        number: 0,
        start_us: Seq::new(alloc),
        schedule: Schedule::Serial,
    }
}

// The next entry of a session, at 1,000,000 microseconds.
fn step(seat: &mut SessionSeat) -> Result<Step, Fail> {
    if seat.awaits().is_some() {
        return Err(Fail::from("it waits for a reply"));
    }
    Ok(seat.next(1_000_000).ok_or("no event is left")?)
}

fn hear(seat: &mut SessionSeat, reply: Reply) -> Result<(), Fail> {
    if seat.awaits().is_none() || matches!(reply, Reply::Listed { .. }) {
        return Err(Fail::from("it waits for no reply"));
    }
    seat.heard(reply);
    Ok(())
}

#[test]
fn a_session_ends_what_is_open(rt: HostRuntime) -> Result<(), Fail> {
    let config = cluster(rt.alloc());
    let mut seat = SessionSeat::open(rt.alloc(), &config, 3);
    assert!(rt; !seat.left());
    seat.give(Command::Clock { node: 0, micros: 7 })?;
    seat.give(Command::Begin { priority: 5 })?;
    assert_eq!(rt; seat.given(), 2);
    seat.finish();

    assert!(rt; seat.left());
    let start = step(&mut seat)?;
    assert!(rt;
        matches!(
            start.entry.event,
            Event::Start {
                command: 1,
                line: Command::Clock { .. }
            }
        )
    );
    let told = step(&mut seat)?;
    assert_eq!(rt; told.moved, Moved::Clock { node: 0, micros: 7 });

    let start = step(&mut seat)?;
    assert!(rt; matches!(start.entry.event, Event::Start { command: 2, .. }));
    let ask = step(&mut seat)?;
    assert_eq!(rt; ask.entry.actor, Actor::Session(3));
    assert_eq!(rt; ask.entry.reading, Some(1_000_000));
    assert_eq!(rt; seat.awaits(), Some(Actor::Status(0)));
    hear(&mut seat, Reply::Begun)?;
    let heard = step(&mut seat)?;
    assert!(rt; matches!(heard.entry.event, Event::Hear { .. }));
    let told = step(&mut seat)?;
    assert!(rt;
        matches!(
            told.entry.event,
            Event::Tell {
                command: 2,
                told: Told::Began { .. }
            }
        )
    );

    assert!(rt; seat.left());
    let end = step(&mut seat)?;
    assert!(rt;
        matches!(
            end.entry.event,
            Event::Start {
                command: 3,
                line: Command::End
            }
        )
    );
    let ask = step(&mut seat)?;
    assert!(rt;
        matches!(
            ask.entry.event,
            Event::Ask {
                to: Actor::Status(0),
                request: Request::Abort { .. }
            }
        )
    );
    hear(&mut seat, Reply::Ended)?;
    assert!(rt; matches!(step(&mut seat)?.entry.event, Event::Hear { .. }));
    assert!(rt; matches!(step(&mut seat)?.entry.event, Event::Tell { command: 3, .. }));
    assert!(rt; !seat.left());
    Ok(())
}

// The next entry of an applier.
fn pass_step(seat: &mut ApplierSeat, done: bool) -> Result<Event, Fail> {
    if seat.awaits().is_some() {
        return Err(Fail::from("it waits for a reply"));
    }
    Ok(seat.next(done).ok_or("no event is left")?.entry.event)
}

fn pass_hears(seat: &mut ApplierSeat, reply: Reply) -> Result<(), Fail> {
    if seat.awaits().is_none() {
        return Err(Fail::from("it waits for no reply"));
    }
    seat.heard(reply);
    Ok(())
}

#[test]
fn an_applier_makes_its_passes_and_a_last_one(rt: HostRuntime) -> Result<(), Fail> {
    let mut seat = ApplierSeat::open(rt.alloc(), 4, 1);
    assert!(rt; seat.left());
    'passes: for number in 1..3u32 {
        let done = number == 2;
        let Event::Start { command, line } = pass_step(&mut seat, done)? else {
            return Err(Fail::from("no pass starts"));
        };
        assert_eq!(rt; command, number);
        assert!(rt; matches!(line, Command::Apply { tablet: 4 }));
        assert!(rt;
            matches!(
                pass_step(&mut seat, done)?,
                Event::Ask {
                    to: Actor::Tablet(4),
                    request: Request::ListIntents
                }
            )
        );
        assert_eq!(rt; seat.awaits(), Some(Actor::Tablet(4)));
        pass_hears(&mut seat, Reply::Intents(Seq::new(rt.alloc())))?;
        assert!(rt; matches!(pass_step(&mut seat, done)?, Event::Hear { .. }));
        assert!(rt; matches!(pass_step(&mut seat, done)?, Event::Tell { .. }));
        assert!(rt; !seat.left());
        assert_eq!(rt; seat.has_event(true), !done);
        assert!(rt; !seat.has_event(false));
    }
    Ok(())
}

fn is_lost(event: &Event) -> bool {
    matches!(
        event,
        Event::Hear {
            reply: Reply::Refused(Refusal::Memory),
            ..
        }
    )
}

fn is_told_so(event: &Event) -> bool {
    matches!(
        event,
        Event::Tell {
            told: Told::Refused(ToldRefusal::Memory),
            ..
        }
    )
}

#[test]
fn a_session_hears_out_of_memory(rt: HostRuntime) -> Result<(), Fail> {
    let config = cluster(rt.alloc());
    let mut seat = SessionSeat::open(rt.alloc(), &config, 3);
    seat.give(Command::Begin { priority: 5 })?;
    assert!(rt; matches!(step(&mut seat)?.entry.event, Event::Start { .. }));
    assert!(rt; matches!(step(&mut seat)?.entry.event, Event::Ask { .. }));
    if seat.awaits().is_none() {
        return Err(Fail::from("it waits for no reply"));
    }
    assert!(rt; is_lost(&seat.lost().entry.event));
    assert!(rt; is_told_so(&step(&mut seat)?.entry.event));
    Ok(())
}

fn lost(seat: &mut ApplierSeat) -> Result<Event, Fail> {
    if seat.awaits().is_none() {
        return Err(Fail::from("it waits for no reply"));
    }
    Ok(seat.lost().entry.event)
}

#[test]
fn an_applier_hears_out_of_memory(rt: HostRuntime) -> Result<(), Fail> {
    let mut seat = ApplierSeat::open(rt.alloc(), 4, 1);
    let start = pass_step(&mut seat, false)?;
    assert!(rt; matches!(start, Event::Start { .. }));
    let ask = pass_step(&mut seat, false)?;
    assert!(rt; matches!(ask, Event::Ask { .. }));
    let hear = lost(&mut seat)?;
    assert!(rt; is_lost(&hear));
    Ok(())
}
