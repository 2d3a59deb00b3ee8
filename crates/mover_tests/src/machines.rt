//! Machines on logs in memory.
ghost use Rattle.std.specs.Prelude.{◌≡◌, ◌^◌, [], true};
ghost use Rattle.txn_data.specs.declared.actor.Actor.{Actor as Who};
ghost use Rattle.txn_data.specs.declared.request.Request.{Request as Asked};
ghost use Rattle.txn_types.specs.Plan.{IsCluster};
ghost use Rattle.world_machines.specs.Machines.{MayServe};

use docdb_base::Seq;
use docdb_outside::{FailAt, MemLog};
use std::alloc::Global;
use std::test::Fail;
use txn_types::{
    Actor, Append, Config, Event, Isolation, Refusal, Reply, Request, Schedule, TxnId,
};
use world_machines::{Answered, Machines};

/// Two tablets and two status tablets.
fn cluster(alloc: Global) -> Config
    ensures cluster { IsCluster result }
    ensures tablets { result.tablets ≡ 2 }
    ensures status { result.status ≡ 2 }
{
    Config {
        nodes: 1,
        tablets: 2,
        status: 2,
        passes: 0,
        skew_us: 500_000,
        lease_us: 2_000_000,
        number: 0,
        start_us: Seq::new(alloc),
        schedule: Schedule::Serial,
    }
}

/// An empty log, in which these calls fail.
fn log(alloc: Global, fails: Vec<FailAt>) -> MemLog
    ensures { result.held ≡ [] }
{
    MemLog::of(Vec::new(alloc), fails)
}

/// What a machine answers session 1, with a reading of 1,000,000 microseconds.
fn serve(machines: &mut Machines<MemLog>, by: Actor, request: Request) -> Result<Answered, Fail>
    requires { MayServe machines.old by request }
    ensures { (other : Who) (asked : Asked) → MayServe machines.old other asked → MayServe machines.new other asked }
{
    if !machines.has_room(by) {
        return Err(Fail::from("it has no room"));
    }
    Ok(machines.serve(by, Actor::Session(1), request, 1_000_000)?)
}

#[test]
fn each_machine_has_its_own_store(rt: HostRuntime) -> Result<(), Fail> {
    let alloc = rt.alloc();
    let unread = FailAt {
        call: 1,
        kept: false,
    };
    let config = cluster(alloc);
    let failing = [unread].to_vec(alloc)?;
    let mut logs = Vec::from_array(
        alloc,
        [
            log(alloc, Vec::new(alloc)),
            log(alloc, failing),
            log(alloc, Vec::new(alloc)),
            log(alloc, Vec::new(alloc)),
            log(alloc, Vec::new(alloc)),
        ],
    )?;
    let mut machines = Machines::open(alloc, &config, &mut logs)?;
    assert!(rt; !machines.has_room(Actor::Tablet(2)));
    assert!(rt; !machines.has_room(Actor::Session(1)));

    let kept = serve(&mut machines, Actor::Tablet(0), Request::Restart)?;
    assert!(rt; matches!(kept.reply, Reply::Restarted { kept: false }));
    assert!(rt; matches!(kept.entry.event, Event::Restarted { kept: false, .. }));

    let failed = serve(&mut machines, Actor::Tablet(1), Request::Restart)?;
    assert!(rt; matches!(failed.reply, Reply::Refused(Refusal::LogFault)));
    assert!(rt; failed.entry.actor == Actor::Tablet(1));
    assert!(rt; failed.entry.reading.is_none());

    let begin = Request::Begin {
        txn: TxnId { number: 7 },
        isolation: Isolation::Snapshot,
        priority: 5,
    };
    let begun = serve(&mut machines, Actor::Status(1), begin)?;
    assert!(rt; matches!(begun.reply, Reply::Begun));
    assert!(rt;
        matches!(
            begun.entry.event,
            Event::Serve {
                append: Append::Took,
                ..
            }
        )
    );

    let stores = machines.into_stores();
    let held = [0, 0, 0, 26, 0];
    assert_eq!(rt; stores.len(), held.len());
    for (store, bytes) in stores.iter().zip(&held) {
        assert_eq!(rt; store.held().len(), *bytes);
    }
    Ok(())
}
