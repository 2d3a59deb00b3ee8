//! Scripts are parted into lines.
ghost use Rattle.std.specs.Prelude.{◌≡◌, ◌<◌, ◌∷◌, ◌++◌, length};
ghost use Rattle.script_text.specs.Lines.{lines_of};

/// The first line of a text that is not empty, and what is behind it.
pub(crate) fn cut_line(bytes: &[u8]) -> (&[u8], &[u8])
    requires { 0 < length bytes.now }
    ensures lines { lines_of bytes.now ≡ result.0.now ∷ lines_of result.1.now }
    ensures whole { 0 < length result.1.now → bytes.now ≡ result.0.now ++ 10 ∷ result.1.now }
    ensures shorter { length result.1.now < length bytes.now }
{
    'bytes: for (i, byte) in bytes.iter().enumerate() {
        if *byte == b'\n' {
            return (&bytes[..i], &bytes[i + 1..]);
        }
    }
    (bytes, &[])
}
