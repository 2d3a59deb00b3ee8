//! A kind of part of a path.

/// A kind of part of a path.
#[derive(Clone, Copy, Debug, PartialEq, Eq)]
pub(crate) enum PartKind {
    /// A column of the document key.
    OfKey,
    /// A subkey, behind the key.
    BehindKey,
}
