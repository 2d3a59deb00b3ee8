//! A message on its way.
use crate::view::View;
use atomic_table::Seat;
use std::marker::Model;

/// A message on its way to a seat. It can go to another thread, and arrives at most once, since `Stage::arrive` takes it.
#[derive(Drop)]
pub struct Note {
    pub(crate) seat: Seat<(), View>,
}

impl Model for Note {
    ghost use Rattle.std.specs.Prelude.{◌≡◌, []};
    ghost use Rattle.actor_table.specs.declared.view.View.TheVariants.{Carries};
    ghost use Rattle.actor_table.specs.Values.{NoteValue, note_of};

    ghost Value = { NoteValue };

    ghost view = { λ s. record { table = s.seat.table_id; at = note_of s.seat.me.0 } };

    ghost invariant = { λ s. s.seat.me ≡ (Carries (note_of s.seat.me.0), []) };
}
