//! A note that names its stage in its type.
ghost use Rattle.std.specs.Prelude.{◌≡◌};

use crate::note::Note;
use crate::stage_name::StageName;
use std::marker::{Model, PhantomData};

/// A note of the stage that `N` names. It keeps the name in a channel or under a lock.
#[derive(Drop)]
pub struct SentNote<N: StageName> {
    note: Note,
    of: PhantomData<N>,
}

impl<N: StageName> Model for SentNote<N> {
    ghost use Rattle.std.specs.Prelude.{◌≡◌};
    ghost use Rattle.actor_table.specs.Values.{NoteValue};

    ghost Value = { NoteValue };

    ghost view = { λ s. s.note };

    ghost invariant = { λ s. s.note.table ≡ N.table };
}

impl<N: StageName> SentNote<N> {
    /// The note, on its way.
    pub fn new(note: Note) -> SentNote<N>
        requires { note.table ≡ N.table }
        ensures { result ≡ note }
    {
        SentNote {
            note,
            of: PhantomData,
        }
    }

    /// The note, which is of the stage named.
    pub fn into_note(self) -> Note
        ensures note { result ≡ self }
        ensures stage { result.table ≡ N.table }
    {
        let SentNote { note, of: _ } = self;
        note
    }
}
