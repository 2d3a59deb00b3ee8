//! Why an actor is not asked.
use actor_words::NotRead;
use std::alloc::AllocError;

/// Why a line does not reach an actor.
#[derive(Clone, Copy, Debug, PartialEq, Eq)]
pub enum Unanswered {
    /// It is not of the form.
    Form,
    /// The actor does not await it now.
    NotAwaited,
    /// No actor is open.
    NoActor,
    /// Out of memory.
    Memory,
}

impl From<NotRead> for Unanswered {
    fn from(why: NotRead) -> Unanswered {
        match why {
            NotRead::Form => Unanswered::Form,
            NotRead::Memory => Unanswered::Memory,
        }
    }
}

impl From<AllocError> for Unanswered {
    fn from(_: AllocError) -> Unanswered {
        Unanswered::Memory
    }
}
