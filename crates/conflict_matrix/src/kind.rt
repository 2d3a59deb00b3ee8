//! The kinds of intents.
ghost use Rattle.std.specs.Prelude.{◌≡◌};
ghost use Rattle.conflict_matrix.specs.Conflict.{is_strong, is_write, conflicts as conflict};

/// What an intent on a path is taken for. A strong one is on the path that is read or written, a weak one on a path above
/// it.
#[derive(Clone, Copy, Debug, PartialEq, Eq)]
pub enum Kind {
    StrongRead,
    StrongWrite,
    WeakRead,
    WeakWrite,
}

impl Kind {
    fn is_strong(self) -> bool
        ensures { result ≡ is_strong self }
    {
        matches!(self, Kind::StrongRead | Kind::StrongWrite)
    }

    fn is_write(self) -> bool
        ensures { result ≡ is_write self }
    {
        matches!(self, Kind::StrongWrite | Kind::WeakWrite)
    }
}

/// Whether two intents on one path conflict: at least one is strong, and one is a read and the other a write. It takes no
/// memory.
pub fn conflicts(a: Kind, b: Kind) -> bool
    ensures { result ≡ conflict a b }
{
    (a.is_strong() || b.is_strong()) && a.is_write() != b.is_write()
}
