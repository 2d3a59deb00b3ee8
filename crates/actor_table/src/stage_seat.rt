//! The right to make the entries of one actor.
ghost use Rattle.std.specs.Prelude.{◌≡◌, ◌≤◌, ◌^◌, length};

use crate::view::View;
use atomic_table::Seat;
use std::marker::Model;

/// The right to make the entries of one actor. It can go to another thread. If a seat is dropped, its stage cannot be closed.
#[derive(Drop)]
pub struct StageSeat {
    pub(crate) seat: Seat<(), View>,
    pub(crate) made: u64,
}

impl Model for StageSeat {
    ghost use Rattle.std.specs.Prelude.{◌≡◌, ◌≤◌, length};
    ghost use Rattle.actor_table.specs.History.{most_entries};
    ghost use Rattle.actor_table.specs.Values.{SeatValue, seat_of, IsSeat};

    ghost Value = { SeatValue };

    ghost view = { λ s. record { table = s.seat.table_id; at = seat_of s.seat.me.0 } };

    ghost invariant = { λ s. IsSeat s.seat.me × (s.made ≡ length (seat_of s.seat.me.0).own) × (s.made ≤ most_entries) };
}

impl StageSeat {
    /// The number of entries that the seat made. It takes no memory.
    pub fn made(&self) -> u64
        ensures count { result ≡ length self.now.at.own }
        ensures bound { result ≤ 2 ^ 40 }
    {
        self.made
    }
}
