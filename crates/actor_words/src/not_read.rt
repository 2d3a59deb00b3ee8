//! Why words are not read.
ghost use Rattle.std.specs.Prelude.{◌≡◌};
ghost use Rattle.actor_words.specs.declared.not_read.NotRead.TheVariants.{Memory};

use doc_path::PathRefusal;
use std::alloc::AllocError;

/// Why words are not read.
#[derive(Clone, Copy, Debug, PartialEq, Eq)]
pub enum NotRead {
    /// They are not of the form.
    Form,
    /// Out of memory.
    Memory,
}

impl From<AllocError> for NotRead {
    ghost from_gives = { λ _ why. why ≡ Memory };

    fn from(_: AllocError) -> NotRead {
        NotRead::Memory
    }
}

impl From<PathRefusal> for NotRead {
    fn from(refusal: PathRefusal) -> NotRead {
        match refusal {
            PathRefusal::TooMany => NotRead::Form,
            PathRefusal::Memory => NotRead::Memory,
        }
    }
}
