//! What a byte of a string does.
use crate::in_string::InString;

/// What a byte of a string does.
#[derive(Clone, Copy, Debug, PartialEq, Eq)]
pub(crate) enum StringStep {
    /// The next byte stands there.
    Goes(InString),
    /// It gives a byte of the string.
    Gives(u8),
    /// It ends the string.
    Ends,
    /// It may not stand there.
    Wrong,
}
