//! Scripts are parted into head and body.
ghost use Rattle.std.specs.Prelude.{◌≡◌, ◌+◌, ◌≤◌, ◌<◌, ◌^◌, length, take, IfSome, option_map};
ghost use Rattle.std.specs.Str.{IsCharBoundary, IsUtf8};
ghost use Rattle.script_text.specs.Lines.{lines_of, parts_of};

use crate::lines::cut_line;

/// How many bytes the head has, how many lines that is, and the body. Nothing where no line is three dashes.
pub(crate) fn parts_of(bytes: &[u8]) -> Option<(usize, u32, &[u8])>
    requires { length bytes.now < 2 ^ 31 }
    ensures parts { option_map (λ x. record { head = take x.0 bytes.now; before = x.1; body = lines_of x.2.now }) result
        ≡ parts_of (lines_of bytes.now) }
    ensures whole { IfSome result (λ x. IsUtf8 bytes.now → IsCharBoundary bytes.now x.0) }
    ensures few { IfSome result (λ x. x.1 + length x.2.now < length bytes.now) }
{
    let mut before: u32 = 0;
    let mut rest = bytes;
    'lines: while !rest.is_empty() {
        let (line, after) = cut_line(rest);
        if line == b"---".as_slice() {
            return Some((bytes.len() - rest.len(), before, after));
        }
        before += 1;
        rest = after;
    }
    None
}
