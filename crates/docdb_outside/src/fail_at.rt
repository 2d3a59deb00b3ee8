//! A call of a log store that is to fail.

/// A call that is to fail.
#[derive(Clone, Copy, Debug, PartialEq, Eq)]
pub struct FailAt {
    /// Its number: appends and loads are numbered together, the first being number 1.
    pub call: u64,
    /// Whether an append that fails has taken its whole piece all the same. At a load it means nothing.
    pub kept: bool,
}
