//! Where a byte of a string stands.
ghost use Rattle.std.specs.Prelude.{◌≡◌, ◌<◌, IfSome};
ghost use Rattle.script_text.specs.Terms.{hex_value, step};

use crate::string_step::StringStep;

/// Where a byte of a string stands.
#[derive(Clone, Copy, Debug, PartialEq, Eq)]
pub(crate) enum InString {
    /// Where a byte stands for itself.
    Plain,
    /// Behind a backslash.
    Escape,
    /// Where the first hexadecimal digit of a byte stands.
    First,
    /// Where the second digit stands, behind a first of this value, which is below 16.
    Second(u8),
}

/// The value of a lower-case hexadecimal digit.
fn hex_value(byte: u8) -> Option<u8>
    ensures value { result ≡ hex_value byte }
    ensures small { IfSome result (λ n. n < 16) }
{
    match byte {
        b'0'..=b'9' => Some(byte - b'0'),
        b'a'..=b'f' => Some(byte - b'a' + 10),
        _ => None,
    }
}

impl InString {
    /// What a byte that stands there does.
    pub(crate) fn step(self, byte: u8) -> StringStep
        ensures { result ≡ step self byte }
    {
        match self {
            InString::Plain => match byte {
                b'"' => StringStep::Ends,
                b'\\' => StringStep::Goes(InString::Escape),
                _ => StringStep::Gives(byte),
            },
            InString::Escape => match byte {
                b'x' => StringStep::Goes(InString::First),
                b'"' | b'\\' => StringStep::Gives(byte),
                _ => StringStep::Wrong,
            },
            InString::First => match hex_value(byte) {
                Some(high) => StringStep::Goes(InString::Second(high)),
                None => StringStep::Wrong,
            },
            InString::Second(high) => match hex_value(byte) {
                Some(low) => StringStep::Gives(high % 16 * 16 + low),
                None => StringStep::Wrong,
            },
        }
    }
}
