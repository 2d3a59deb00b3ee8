//! What all actors share: the word that stamps their entries.
ghost use Rattle.std.specs.Prelude.{◌≡◌, ◌+◌, ◌*◌, ◌^◌, ◌<◌, ◌≤◌, [], length, List, true, false, IfOk};
ghost use Rattle.actor_table.specs.declared.view.View.TheVariants.{Sits};
ghost use Rattle.actor_table.specs.Steps.{newcomer, after_act, arrived, has_arrived, has_message, note_from, after_leave, after_arrive, AreBelow, IsBelow, StampFits};
ghost use Rattle.actor_table.specs.Values.{fresh, fresh_seats};
ghost use Rattle.actor_table.specs.Closed.{AreAllOf, HaveHistory, SharesStamps, UsesOnce, SeesNoMore};

use crate::arrive::Arrive;
use crate::deal::Deal;
use crate::gather::Gather;
use crate::leave::Leave;
use crate::note::Note;
use crate::rule::StageRule;
use crate::said::Said;
use crate::stage_seat::StageSeat;
use crate::stamp::Stamp;
use crate::stamped::Stamped;
use crate::view::View;
use atomic_table::{Seat, Table};
use docdb_base::Memory;
use std::alloc::Global;
use std::marker::{Brand, Model};

/// What all actors share: the word that stamps their entries. It has at most 65,536 actors, and each makes at most 2^40
/// entries, so that no stamp is 2^56 or more, and the word never wraps.
#[derive(Drop)]
pub struct Stage {
    table: Table<(), View, u64, StageRule, Global>,
}

impl Model for Stage {
    ghost use Rattle.std.specs.Prelude.{◌≡◌, ◌<◌};
    ghost use Rattle.actor_table.specs.Values.{StageValue};

    ghost Value = { StageValue };

    ghost view = { λ s. record { table = s.table.shared.table_id; actors = s.table.shared.key } };

    ghost invariant = { λ s. (s.table.shared.table_id.words ≡ 1) × (s.table.shared.table_id.slots ≡ 0) × (0 < s.table.shared.key) };
}

// The seat of the next actor.
fn deal(
    table: &Table<(), View, u64, StageRule, Global>,
    first: &mut Seat<(), View>,
    next: u32,
    last: u32,
) -> StageSeat
    requires table { (first.old.table_id ≡ table.now.shared.table_id) × (table.now.shared.table_id.words ≡ 1) }
    requires first { (first.old.me ≡ (Sits (newcomer last next), [])) × (next < last) }
    ensures first { (first.new.table_id ≡ first.old.table_id) × (first.new.me ≡ (Sits (newcomer last (next + 1)), [])) }
    ensures seat { result ≡ fresh table.now.shared.table_id next }
{
    let seat = table.shared.split_seat::<Deal>(first);
    StageSeat { seat, made: 0 }
}

impl Stage {
    /// A stage, and the seats of its actors, the k-th of which is that of the actor k.
    pub fn open(alloc: Global, actors: u32) -> Result<(Stage, Vec<StageSeat>), Memory>
        requires { (0 < actors) × (actors ≤ 65536) }
        ensures actors { IfOk result (λ r. r.0.actors ≡ actors) }
        ensures seats { IfOk result (λ r. r.1.items ≡ fresh_seats r.0.table actors) }
    {
        let (table, mut first) = Table::of_words(alloc, &[0], &u64::from(actors))?;
        let last = actors - 1;
        let mut seats = Vec::new(alloc);
        for next in 0..last {
            seats.push(deal(&table, &mut first, next, last))?;
        }
        seats.push(StageSeat {
            seat: first,
            made: 0,
        })?;
        Ok((Stage { table }, seats))
    }

    // The step of `act`, whose entry the call picks.
    fn stamp<E: Stamped, N: Said>(&self, seat: &mut StageSeat, entry: &E) -> u64
        requires stage { seat.old.table ≡ self.now.table }
        requires room { length seat.old.at.own < 2 ^ 40 }
        requires said { E.seen entry.now ≡ N.said }
        ensures table { seat.new.table ≡ seat.old.table }
        ensures seat { seat.new.at ≡ after_act result (E.seen entry.now) seat.old.at }
        ensures stamp { StampFits result seat.old.at }
    {
        let found = self
            .table
            .shared
            .fetch_add::<Stamp<N>>(&mut seat.seat, 0, 1);
        seat.made += 1;
        found
    }

    /// Stamps an entry. The stamp is the old value of the word that all seats share, and so the place of the entry in
    /// the history of all actors. An entry that uses a message uses the one that arrived. After it the seat holds the message of
    /// the entry.
    ///
    /// It is one atomic step. It takes no memory and waits for nobody.
    pub fn act<E: Stamped>(&self, seat: &mut StageSeat, entry: &E) -> u64
        requires stage { seat.old.table ≡ self.now.table }
        requires room { length seat.old.at.own < 2 ^ 40 }
        requires uses { E.uses entry.now ≡ has_arrived seat.old.at.held }
        ensures table { seat.new.table ≡ seat.old.table }
        ensures seat { seat.new.at ≡ after_act result (E.seen entry.now) seat.old.at }
        ensures rises { AreBelow result seat.old.at.own }
        ensures later { seat.old.at.known ≤ result }
        ensures answers { IsBelow result (arrived seat.old.at.held) }
        ensures bound { result < 65536 * 2 ^ 40 }
    {
        self.stamp::<E, Brand>(seat, entry)
    }

    /// Lets the message that the seat holds leave: that of its last entry, or one that arrived and that no entry used. It takes
    /// no memory and waits for nobody.
    pub fn leave(&self, seat: &mut StageSeat) -> Note
        requires stage { seat.old.table ≡ self.now.table }
        requires holds { has_message seat.old.at.held ≡ true }
        ensures table { (seat.new.table ≡ seat.old.table) × (result.table ≡ seat.old.table) }
        ensures seat { seat.new.at ≡ after_leave seat.old.at }
        ensures note { result.at ≡ note_from seat.old.at }
    {
        let note = self.table.shared.split_seat::<Leave>(&mut seat.seat);
        Note { seat: note }
    }

    /// Takes in a note: its message arrives. It takes no memory and waits for nobody.
    pub fn arrive(&self, seat: &mut StageSeat, note: Note)
        requires stage { (seat.old.table ≡ self.now.table) × (note.table ≡ self.now.table) }
        requires holds { has_message seat.old.at.held ≡ false }
        ensures table { seat.new.table ≡ seat.old.table }
        ensures seat { seat.new.at ≡ after_arrive seat.old.at note.at }
    {
        let Note { seat: other } = note;
        self.table.shared.join_seat::<Arrive>(&mut seat.seat, other);
    }

    /// Closes the stage with all its seats, in any order. The result is the number of stamps.
    pub fn close_all(self, mut seats: Vec<StageSeat>) -> u64
        requires { AreAllOf self seats.items }

        // The stamps of all seats are the numbers below the result, each once.
        ensures stamps { SharesStamps result seats.items }

        // Each used message was made by an earlier entry of the seats, and was used once.
        ensures messages { UsesOnce seats.items }

        // No count that a seat has seen is above the number of entries of the actor that it names.
        ensures counts { SeesNoMore seats.items }
        ensures bound { result ≤ self.actors * 2 ^ 40 }

        // The entries of all seats, in the order of their stamps, are one history.
        ensures history { HaveHistory self.actors result seats.items }
    {
        let Stage { table } = self;
        let Some(last) = seats.pop() else {
            unreachable!()
        };
        let StageSeat {
            seat: mut first,
            made: _,
        } = last;
        while let Some(next) = seats.pop() {
            let StageSeat { seat, made: _ } = next;
            table.shared.join_seat::<Gather>(&mut first, seat);
        }
        let closed = table.close_with(first);
        let stamps = closed.word(0);
        closed.free();
        stamps
    }
}
