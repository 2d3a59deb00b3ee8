//! Texts are parted.
ghost use Rattle.std.specs.Prelude.{◌≡◌, ◌<◌, ◌≤◌, ◌∷◌, length};
ghost use Rattle.script_text.specs.Words.{pieces_behind, pieces_of};

use crate::marks::Marks;
use crate::within::Within;

/// The text up to the first mark, the mark, and what is behind it. Where there is no mark, the text is all, and 0 and
/// nothing stand for the others.
pub(crate) fn cut(marks: Marks, bytes: &[u8]) -> (&[u8], u8, &[u8])
    ensures pieces { pieces_of marks bytes.now
        ≡ record { text = result.0.now; mark = result.1 } ∷ pieces_behind marks result.1 result.2.now }
    ensures shorter { 0 < result.1 → length result.2.now < length bytes.now }
{
    let mut within = Within::Outside;
    'bytes: for (i, byte) in bytes.iter().enumerate() {
        if within.is_mark(marks, *byte) {
            return (&bytes[..i], *byte, &bytes[i + 1..]);
        }
        within = within.after(*byte);
    }
    (bytes, 0, &[])
}
