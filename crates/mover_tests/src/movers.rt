//! A session and the applier of a tablet through a few entries worked by hand.
ghost use Rattle.std.specs.Prelude.{IfOk};
ghost use Rattle.txn_data.specs.declared.config.Config.{Config as Cluster};
ghost use Rattle.txn_types.specs.Plan.{IsCluster, IsPlan};

use docdb_base::{Memory, Seq};
use std::alloc::Global;
use std::test::Fail;
use txn_types::{
    Actor, Command, Commands, Config, Event, Mover, Refusal, Reply, Request, Schedule, SessionPlan,
};
use world_movers::{Asking, Movers};

fn cluster(alloc: Global) -> Config
    ensures { IsCluster result }
{
    Config {
        nodes: 1,
        tablets: 1,
        status: 1,
        passes: 0,
        skew_us: 500_000,
        lease_us: 2_000_000,
        number: 0,
        start_us: Seq::new(alloc),
        schedule: Schedule::Serial,
    }
}

// Session 3 begins a transaction.
fn plan(alloc: Global) -> Result<Commands, Memory>
    ensures { (cluster : Cluster) → IfOk result (λ plan. IsPlan cluster plan) }
{
    let begin = Command::Begin { priority: 5 };
    let only = SessionPlan {
        session: 3,
        commands: Seq::of(vec![in alloc; begin]?),
    };
    Ok(Commands {
        sessions: Seq::of(vec![in alloc; only]?),
        order: Seq::new(alloc),
        go: Seq::new(alloc),
    })
}

// The next entry of a mover, at 1,000,000 microseconds.
fn step(movers: &mut Movers, who: Mover, at: usize) -> Result<Event, Fail> {
    if movers.awaits(who).is_some() {
        return Err(Fail::from("it waits for a reply"));
    }
    Ok(
        movers
            .next(who, 1_000_000, at)
            .ok_or("no event is left")?
            .entry
            .event,
    )
}

fn answer(movers: &mut Movers, who: Mover, reply: Reply) -> Result<(), Fail> {
    if movers.awaits(who).is_none() || matches!(reply, Reply::Listed { .. }) {
        return Err(Fail::from("it waits for no reply"));
    }
    movers.answered(who, reply);
    Ok(())
}

fn lose(movers: &mut Movers, who: Mover) -> Result<Event, Fail> {
    if movers.awaits(who).is_none() {
        return Err(Fail::from("it waits for no reply"));
    }
    Ok(movers.lost(who).entry.event)
}

fn is_lost(event: &Event) -> bool {
    matches!(
        event,
        Event::Hear {
            reply: Reply::Refused(Refusal::Memory),
            ..
        }
    )
}

// The transaction begins, and is told.
fn begins(movers: &mut Movers, who: Mover) -> Result<bool, Fail> {
    let start = step(movers, who, 0)?;
    let ask = step(movers, who, 1)?;
    let asking = movers.awaits(who);
    answer(movers, who, Reply::Begun)?;
    let hear = step(movers, who, 3)?;
    let tell = step(movers, who, 4)?;
    Ok(
        matches!(start, Event::Start { command: 1, .. })
            && matches!(ask, Event::Ask { .. })
            && asking
                == Some(Asking {
                    to: Actor::Status(0),
                    at: 1,
                })
            && matches!(hear, Event::Hear { .. })
            && matches!(tell, Event::Tell { .. }),
    )
}

// The session ends, and hears out of memory.
fn ends(movers: &mut Movers, who: Mover) -> Result<bool, Fail> {
    let start = step(movers, who, 5)?;
    let ask = step(movers, who, 6)?;
    let hear = lose(movers, who)?;
    let tell = step(movers, who, 8)?;
    Ok(
        matches!(start, Event::Start { command: 2, .. })
            && matches!(
                ask,
                Event::Ask {
                    request: Request::Abort { .. },
                    ..
                }
            )
            && is_lost(&hear)
            && matches!(tell, Event::Tell { .. }),
    )
}

#[test]
fn a_session_is_done(rt: HostRuntime) -> Result<(), Fail> {
    let config = cluster(rt.alloc());
    let plan = plan(rt.alloc())?;
    let mut movers = Movers::open(rt.alloc(), &config, &plan)?;
    let session = Mover::Session(3);
    assert!(rt; movers.left(session));
    assert!(rt; !movers.left(Mover::Session(4)));
    assert!(rt; begins(&mut movers, session)?);
    assert!(rt; movers.has_event(session));
    assert!(rt; ends(&mut movers, session)?);
    assert!(rt; !movers.has_event(session));
    assert!(rt; movers.awaits(session).is_none());
    Ok(())
}

#[test]
fn a_last_pass_waits_for_the_session(rt: HostRuntime) -> Result<(), Fail> {
    let config = cluster(rt.alloc());
    let plan = plan(rt.alloc())?;
    let mut movers = Movers::open(rt.alloc(), &config, &plan)?;
    let applier = Mover::Applier(0);
    assert!(rt; !movers.has_event(applier));
    assert!(rt; begins(&mut movers, Mover::Session(3))?);
    assert!(rt; ends(&mut movers, Mover::Session(3))?);
    assert!(rt; movers.has_event(applier));
    assert!(rt; !movers.left(applier));
    assert!(rt; !movers.has_event(Mover::Applier(1)));
    assert!(rt; matches!(step(&mut movers, applier, 9)?, Event::Start { .. }));
    Ok(())
}
