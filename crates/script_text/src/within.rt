//! Where a byte of a line stands.
ghost use Rattle.std.specs.Prelude.{◌≡◌};
ghost use Rattle.script_text.specs.Words.{after, is_mark};

use crate::marks::Marks;

/// Where a byte of a line stands.
#[derive(Clone, Copy, Debug, PartialEq, Eq)]
pub(crate) enum Within {
    /// Outside strings.
    Outside,
    /// Within a string.
    Inside,
    /// Within a string, behind a backslash.
    Behind,
}

impl Within {
    /// Where the byte after this one stands.
    pub(crate) fn after(self, byte: u8) -> Within
        ensures { result ≡ after self byte }
    {
        match self {
            Within::Outside if byte == b'"' => Within::Inside,
            Within::Inside if byte == b'"' => Within::Outside,
            Within::Inside if byte == b'\\' => Within::Behind,
            Within::Behind => Within::Inside,
            same => same,
        }
    }

    /// Whether the byte that stands there parts the text.
    pub(crate) fn is_mark(self, marks: Marks, byte: u8) -> bool
        ensures { result ≡ is_mark marks self byte }
    {
        self == Within::Outside && marks.parts(byte)
    }
}
