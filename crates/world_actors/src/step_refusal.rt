//! Why a mover was not moved.
ghost use Rattle.std.specs.Prelude.{◌≡◌};

use std::alloc::AllocError;
use std::error::Error;
use std::fmt;

/// Why a mover was not moved.
#[derive(Clone, Copy, Debug, PartialEq, Eq)]
pub enum StepRefusal {
    /// It has no event left.
    NotEnabled,
    /// Out of memory.
    Memory,
}

impl fmt::Display for StepRefusal {
    fn fmt<W: fmt::Write>(&self, f: &mut fmt::Formatter<W>) -> fmt::Result {
        match self {
            StepRefusal::NotEnabled => f.write_str("no event is left"),
            StepRefusal::Memory => f.write_str("out of memory"),
        }
    }
}

impl Error for StepRefusal {}

impl From<AllocError> for StepRefusal {
    ghost use Rattle.world_actors.specs.declared.step_refusal.StepRefusal.{StepRefusal};
    ghost use Rattle.world_actors.specs.declared.step_refusal.StepRefusal.TheVariants as refusal;

    ghost from_gives = { λ _ r. r ≡ refusal.Memory };

    fn from(_: AllocError) -> StepRefusal {
        StepRefusal::Memory
    }
}
