//! Where a read of a session can have its origin.
ghost use Rattle.std.specs.Prelude.{◌≡◌};
ghost use Rattle.txn_types.specs.Lists.{or_else};

/// Where a read of a session can have its origin: the Start of a command of it.
#[derive(Clone, Copy, Debug)]
pub struct Origin {
    /// The greatest reading that any actor recorded before it, in microseconds, or 0.
    pub before: u64,
    /// The first reading that the session recorded from it on, in microseconds.
    pub own: Option<u64>,
}

impl Origin {
    /// With the reading of one more entry of the session.
    pub fn with_reading(self, reading: Option<u64>) -> Origin
        ensures before { result.before ≡ self.before }
        ensures own { result.own ≡ or_else self.own reading }
    {
        Origin {
            before: self.before,
            own: self.own.or(reading),
        }
    }
}
