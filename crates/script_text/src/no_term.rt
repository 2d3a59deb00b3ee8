//! Why a text is no term.
ghost use Rattle.std.specs.Prelude.{◌≡◌};
ghost use Rattle.script_text.specs.declared.no_term.NoTerm.TheVariants.{Memory};

use std::alloc::{AllocError, AllocFailed};

/// Why a text is no term.
#[derive(Clone, Copy, Debug, PartialEq, Eq)]
pub(crate) enum NoTerm {
    /// It spells none.
    Other,
    /// Out of memory.
    Memory,
}

impl From<AllocError> for NoTerm {
    ghost from_gives = { λ _ e. e ≡ Memory };

    fn from(_error: AllocError) -> NoTerm {
        NoTerm::Memory
    }
}

impl<T: Drop> From<AllocFailed<T>> for NoTerm {
    ghost from_gives = { λ _ e. e ≡ Memory };

    fn from(_error: AllocFailed<T>) -> NoTerm {
        NoTerm::Memory
    }
}
