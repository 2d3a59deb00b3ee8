//! Why nothing was decided.
ghost use Rattle.std.specs.Prelude.{◌≡◌};
ghost use Rattle.tablet_core.specs.declared.undecided.Undecided.TheVariants.{Memory};

use std::alloc::AllocError;

/// Why nothing was decided.
#[derive(Clone, Copy, Debug)]
pub(crate) enum Undecided {
    /// The tablet is down since the action with this number.
    Down { since: u64 },
    /// Out of memory.
    Memory,
}

impl From<AllocError> for Undecided {
    ghost from_gives = { λ _ why. why ≡ Memory };

    fn from(_: AllocError) -> Undecided {
        Undecided::Memory
    }
}
