//! What comes in place of a script.
ghost use Rattle.std.specs.Prelude.{◌≡◌};
ghost use Rattle.script_text.specs.declared.script_refusal.ScriptRefusal.TheVariants.{Memory};

use crate::why::Why;
use std::alloc::{AllocError, AllocFailed};
use std::error::Error;
use std::fmt;

/// What comes in place of a script.
#[derive(Clone, Copy, Debug, PartialEq, Eq)]
pub enum ScriptRefusal {
    /// The line, counted from 1, or 0 where the reason is of the script or its head.
    ScriptRefused { line: u32, why: Why },
    /// Out of memory.
    Memory,
}

impl From<AllocError> for ScriptRefusal {
    ghost from_gives = { λ _ e. e ≡ Memory };

    fn from(_error: AllocError) -> ScriptRefusal {
        ScriptRefusal::Memory
    }
}

impl<T: Drop> From<AllocFailed<T>> for ScriptRefusal {
    ghost from_gives = { λ _ e. e ≡ Memory };

    fn from(_error: AllocFailed<T>) -> ScriptRefusal {
        ScriptRefusal::Memory
    }
}

impl fmt::Display for ScriptRefusal {
    ghost use Rattle.std.specs.Prelude.{Some};
    ghost use Rattle.script_text.specs.Shown.{refusal_text};

    ghost output = { λ refusal. Some (refusal_text refusal) };

    fn fmt<W: fmt::Write>(&self, f: &mut fmt::Formatter<W>) -> fmt::Result {
        match self {
            ScriptRefusal::ScriptRefused { line, why } => write!(
                f,
                "line {line} of the script: {why}"
            ),
            ScriptRefusal::Memory => f.write_str("out of memory"),
        }
    }
}

impl Error for ScriptRefusal {}
