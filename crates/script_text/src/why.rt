//! Why a script is refused.
ghost use Rattle.std.specs.Prelude.{◌≡◌, Some};
ghost use Rattle.script_text.specs.Shown.{word_of};

use std::fmt;

/// Why a script is refused. The first three are of the script as a whole, the next three of its
/// head, and the others of a line.
#[derive(Clone, Copy, Debug, PartialEq, Eq)]
pub enum Why {
    /// More bytes than a script may have.
    Long,
    /// The bytes are not UTF-8.
    Utf8,
    /// No line is three dashes.
    NoHead,
    /// The head is not TOML.
    HeadText,
    /// The head has an unknown key.
    HeadKey,
    /// A value of the head is of another kind or out of range.
    HeadValue,
    /// The line does not begin with a session and a colon.
    Session,
    /// The line names no command.
    Command,
    /// The command has another number of words, or an optional word of another form.
    Words,
    /// A word is no path.
    Path,
    /// A word is no value.
    Value,
    /// A number, an actor, a tablet, a node or a mover is not well formed, or out of range.
    Number,
    /// More commands or more moves than a script may have.
    Many,
}

impl Why {
    /// Its word in a report.
    pub fn word(self) -> &'static str
        ensures { result.now ≡ word_of self }
    {
        match self {
            Why::Long => "long",
            Why::Utf8 => "utf8",
            Why::NoHead => "no-head",
            Why::HeadText => "head-text",
            Why::HeadKey => "head-key",
            Why::HeadValue => "head-value",
            Why::Session => "session",
            Why::Command => "command",
            Why::Words => "words",
            Why::Path => "path",
            Why::Value => "value",
            Why::Number => "number",
            Why::Many => "many",
        }
    }
}

impl fmt::Display for Why {
    ghost output = { λ why. Some (word_of why) };

    fn fmt<W: fmt::Write>(&self, f: &mut fmt::Formatter<W>) -> fmt::Result {
        f.write_str(self.word())
    }
}
