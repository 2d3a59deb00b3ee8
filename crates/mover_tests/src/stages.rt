//! Threads that stamp entries, and threads that send each other notes.
ghost use Rattle.std.specs.Prelude.{◌≡◌, ◌+◌, ◌<◌, false, [], length, IfOk};
ghost use Rattle.actor_table.specs.Values.{fresh};
ghost use Rattle.actor_table.specs.Steps.{has_arrived, has_message};

use actor_table::{Note, SentNote, Spent, Stage, StageName, StageSeat, Stamped};
use crossbeam_channel::{Receiver, Sender};
use docdb_base::Memory;
use std::alloc::Global;
use std::marker::Brand;
use std::sync::Wait;
use std::test::*;
use std::thread;
use std::thread::Threads;
use txn_data::{Actor, Append, Entry, Event, Reply, Request, Told};

/// An entry that uses no message.
#[derive(Drop)]
struct Plain(Entry);

impl Stamped for Plain {
    ghost use Rattle.std.specs.Prelude.{false};

    ghost seen = { λ e. e.0 };

    ghost uses = { λ _. false };
}

/// An entry that uses the message that its seat holds.
#[derive(Drop)]
struct Using(Entry);

impl Stamped for Using {
    ghost use Rattle.std.specs.Prelude.{true};

    ghost seen = { λ e. e.0 };

    ghost uses = { λ _. true };
}

// Session 1 was told that its clock line is set.
fn clock_set(command: u32) -> Plain {
    Plain(Entry {
        actor: Actor::Session(1),
        reading: None,
        event: Event::Tell {
            command,
            told: Told::Set,
        },
    })
}

// Session 1 asks tablet 0.
fn ask() -> Plain {
    Plain(Entry {
        actor: Actor::Session(1),
        reading: None,
        event: Event::Ask {
            to: Actor::Tablet(0),
            request: Request::ListIntents,
        },
    })
}

// Session 1 hears from tablet 0.
fn hear() -> Using {
    Using(Entry {
        actor: Actor::Session(1),
        reading: None,
        event: Event::Hear {
            from: Actor::Tablet(0),
            reply: Reply::Cleaned,
        },
    })
}

// Tablet 0 serves session 1.
fn serve() -> Using {
    Using(Entry {
        actor: Actor::Tablet(0),
        reading: None,
        event: Event::Serve {
            from: Actor::Session(1),
            request: Request::ListIntents,
            reply: Reply::Cleaned,
            time: None,
            append: Append::Nothing,
        },
    })
}

// A stage with its two seats.
fn open_two(alloc: Global) -> Result<(Stage, StageSeat, StageSeat), Memory>
    ensures { IfOk result (λ r. (r.0.actors ≡ 2) × (r.1 ≡ fresh r.0.table 0) × (r.2 ≡ fresh r.0.table 1)) }
{
    let (stage, mut seats) = Stage::open(alloc, 2)?;
    let Some(second) = seats.pop() else {
        unreachable!()
    };
    let Some(first) = seats.pop() else {
        unreachable!()
    };
    Ok((stage, first, second))
}

// Closes a stage with its two seats, the second one first.
fn close_two(
    alloc: Global,
    stage: Stage,
    first: StageSeat,
    second: StageSeat,
) -> Result<u64, Memory>
    requires { (stage.actors ≡ 2) × (first.table ≡ stage.table) × (second.table ≡ stage.table) }
{
    let mut seats = Vec::new(alloc);
    seats.push(second)?;
    seats.push(first)?;
    Ok(stage.close_all(seats))
}

// Stamps 1,000 entries.
fn stamp_many(
    stage: &Stage,
    alloc: Global,
    mut seat: StageSeat,
) -> Result<(StageSeat, Vec<u64>), Memory>
    requires { (seat.table ≡ stage.now.table) × (seat.at.own ≡ []) × (has_arrived seat.at.held ≡ false) }
    ensures { IfOk result (λ r. r.0.table ≡ seat.table) }
{
    let mut stamps = Vec::new(alloc);
    for command in 0..1000u32 {
        stamps.push(stage.act(&mut seat, &clock_set(command)))?;
    }
    Ok((seat, stamps))
}

fn two_threads<R: Threads + Sync>(rt: &R, alloc: Global) -> Result<(u64, Vec<u64>), Memory> {
    let (stage, first, second) = open_two(alloc)?;
    let shared = &stage;
    let (a, b) = thread::join(
        rt,
        move ||
            requires { (first.table ≡ shared.now.table) × (first.at.own ≡ []) × (has_arrived first.at.held ≡ false) }
            ensures { IfOk result (λ r. r.0.table ≡ first.table) }
        { stamp_many(shared, alloc, first) },
        move ||
            requires { (second.table ≡ shared.now.table) × (second.at.own ≡ []) × (has_arrived second.at.held ≡ false) }
            ensures { IfOk result (λ r. r.0.table ≡ second.table) }
        { stamp_many(shared, alloc, second) },
    );
    let (first, mut stamps) = a?;
    let (second, more) = b?;
    stamps.extend_from_slice(more.as_slice())?;
    Ok((close_two(alloc, stage, first, second)?, stamps))
}

#[test]
fn two_threads_share_the_numbers(rt: HostRuntime) -> Result<(), Fail> {
    let (count, mut stamps) = two_threads(&rt, rt.alloc())?;
    stamps.sort()?;
    let mut next = 0;
    for stamp in &stamps {
        assert!(rt; *stamp == next && next < 2000);
        next += 1;
    }
    assert!(rt; count == 2000 && next == 2000);
    Ok(())
}

// Session 1 asks: the stamp, and the request on its way.
fn ask_away(stage: &Stage, seat: &mut StageSeat) -> (u64, Note)
    requires stage { seat.old.table ≡ stage.now.table }
    requires room { length seat.old.at.own < 1000 }
    requires ready { has_arrived seat.old.at.held ≡ false }
    ensures stage { (seat.new.table ≡ stage.now.table) × (result.1.table ≡ stage.now.table) }
    ensures made { length seat.new.at.own ≡ length seat.old.at.own + 1 }
    ensures held { has_message seat.new.at.held ≡ false }
{
    let stamp = stage.act(seat, &ask());
    let note = stage.leave(seat);
    (stamp, note)
}

// Session 1 hears the reply: the stamp.
fn hear_reply(stage: &Stage, seat: &mut StageSeat, note: Note) -> u64
    requires stage { (seat.old.table ≡ stage.now.table) × (note.table ≡ stage.now.table) }
    requires room { length seat.old.at.own < 1000 }
    requires ready { has_message seat.old.at.held ≡ false }
    ensures stage { seat.new.table ≡ stage.now.table }
    ensures made { length seat.new.at.own ≡ length seat.old.at.own + 1 }
    ensures held { has_arrived seat.new.at.held ≡ false }
{
    stage.arrive(seat, note);
    stage.act(seat, &hear())
}

// Tablet 0 serves the request: the stamp, and the reply on its way.
fn serve_request(stage: &Stage, seat: &mut StageSeat, note: Note) -> (u64, Note)
    requires stage { (seat.old.table ≡ stage.now.table) × (note.table ≡ stage.now.table) }
    requires room { length seat.old.at.own < 1000 }
    requires ready { has_message seat.old.at.held ≡ false }
    ensures stage { (seat.new.table ≡ stage.now.table) × (result.1.table ≡ stage.now.table) }
    ensures made { length seat.new.at.own ≡ length seat.old.at.own + 1 }
    ensures held { has_message seat.new.at.held ≡ false }
{
    stage.arrive(seat, note);
    let stamp = stage.act(seat, &serve());
    let note = stage.leave(seat);
    (stamp, note)
}

// Asks 100 times, and hears each reply: the stamps of both.
fn ask_many<N: StageName, R: Wait>(
    rt: &R,
    alloc: Global,
    stage: &Stage,
    mut seat: StageSeat,
    to: Sender<SentNote<N>, Global>,
    from: Receiver<SentNote<N>, Global>,
) -> Result<(StageSeat, Vec<(u64, u64)>), Memory>
    requires stage { (stage.now.table ≡ N.table) × (seat.table ≡ N.table) }
    requires fresh { (seat.at.own ≡ []) × (has_arrived seat.at.held ≡ false) }
    ensures { IfOk result (λ r. r.0.table ≡ N.table) }
{
    let mut stamps = Vec::new(alloc);
    for round in 0..100u32 {
        let (asked, note) = ask_away(stage, &mut seat);
        let _ = to.send(rt, SentNote::new(note));
        let Ok(reply) = from.recv(rt) else {
            break;
        };
        let heard = hear_reply(stage, &mut seat, reply.into_note());
        stamps.push((asked, heard))?;
    }
    Ok((seat, stamps))
}

// Serves 100 requests: the stamps.
fn serve_many<N: StageName, R: Wait>(
    rt: &R,
    alloc: Global,
    stage: &Stage,
    mut seat: StageSeat,
    to: Sender<SentNote<N>, Global>,
    from: Receiver<SentNote<N>, Global>,
) -> Result<(StageSeat, Vec<u64>), Memory>
    requires stage { (stage.now.table ≡ N.table) × (seat.table ≡ N.table) }
    requires fresh { (seat.at.own ≡ []) × (has_message seat.at.held ≡ false) }
    ensures { IfOk result (λ r. r.0.table ≡ N.table) }
{
    let mut stamps = Vec::new(alloc);
    for round in 0..100u32 {
        let Ok(request) = from.recv(rt) else {
            break;
        };
        let (served, note) = serve_request(stage, &mut seat, request.into_note());
        let _ = to.send(rt, SentNote::new(note));
        stamps.push(served)?;
    }
    Ok((seat, stamps))
}

// What two threads that talk are left with: the number of stamps, those of each seat, and how many entries each made.
#[derive(Drop)]
struct Talk {
    count: u64,
    asked: Vec<(u64, u64)>,
    served: Vec<u64>,
    made: (u64, u64),
}

fn run_talk<N: StageName + Send + Sync, R: Threads + Wait + Sync>(
    rt: &R,
    alloc: Global,
    stage: Stage,
    first: StageSeat,
    second: StageSeat,
) -> Result<Talk, Memory>
    requires stage { (stage.table ≡ N.table) × (stage.actors ≡ 2) }
    requires first { first ≡ fresh N.table 0 }
    requires second { second ≡ fresh N.table 1 }
{
    let shared = &stage;
    let (to_tablet, requests) = crossbeam_channel::unbounded::<SentNote<N>, Global>(alloc)?;
    let (to_session, replies) = crossbeam_channel::unbounded::<SentNote<N>, Global>(alloc)?;
    let (one, two) = thread::join(
        rt,
        move ||
            requires { (shared.now.table ≡ N.table) × (first.table ≡ N.table) × (first.at.own ≡ []) × (has_arrived first.at.held ≡ false) }
            ensures { IfOk result (λ r. r.0.table ≡ N.table) }
        { ask_many(rt, alloc, shared, first, to_tablet, replies) },
        move ||
            requires { (shared.now.table ≡ N.table) × (second.table ≡ N.table) × (second.at.own ≡ []) × (has_message second.at.held ≡ false) }
            ensures { IfOk result (λ r. r.0.table ≡ N.table) }
        { serve_many(rt, alloc, shared, second, to_session, requests) },
    );
    let (first, asked) = one?;
    let (second, served) = two?;
    let made = (first.made(), second.made());
    Ok(Talk {
        count: close_two(alloc, stage, first, second)?,
        asked,
        served,
        made,
    })
}

#[test]
fn notes_go_both_ways(rt: HostRuntime) -> Result<(), Fail> {
    let (stage, first, second) = open_two(rt.alloc())?;
    let talk = run_talk::<Brand, HostRuntime>(&rt, rt.alloc(), stage, first, second)?;
    assert_eq!(rt; talk.count, 300);
    assert_eq!(rt; talk.made, (200, 100));
    let mut next = 0;
    for (both, served) in talk.asked.iter().zip(talk.served.iter()) {
        assert!(rt; next <= both.0 && both.0 < *served && *served < both.1);
        next = both.1;
    }
    assert_eq!(rt; (talk.asked.len(), talk.served.len()), (100, 100));
    Ok(())
}

#[test]
fn spent_names_the_actor(rt: HostRuntime) -> Result<(), Fail> {
    let spent = Spent {
        actor: Actor::Session(7),
    };
    assert_eq!(rt;
        format!(in rt.alloc(); "{spent}")?.as_str(),
        "session 7 has made as many entries as an actor can"
    );
    Ok(())
}
