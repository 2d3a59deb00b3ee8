//! Which bytes part a text.
ghost use Rattle.std.specs.Prelude.{◌≡◌};
ghost use Rattle.script_text.specs.Words.{parts};

/// Which bytes part a text.
#[derive(Clone, Copy, Debug, PartialEq, Eq)]
pub(crate) enum Marks {
    /// The spaces between the words of a line.
    OfLine,
    /// The brackets, semicolons, commas and slashes of a path.
    OfPath,
}

impl Marks {
    /// Whether the byte parts a text, where it stands outside strings.
    pub(crate) fn parts(self, byte: u8) -> bool
        ensures { result ≡ parts self byte }
    {
        match self {
            Marks::OfLine => byte == b' ',
            Marks::OfPath => matches!(byte, b'[' | b';' | b',' | b']' | b'/'),
        }
    }
}
