//! The form of the scripts that are read so far.
ghost use Rattle.std.specs.Prelude.{◌≡◌, ◌<◌, ℕ, ◌∷◌, Err, IfOk, length};
ghost use Rattle.docdb_run.specs.Form.{lines_of, form_of, Accepted, Later};

use crate::form_reader::FormReader;
use crate::form_refusal::FormRefusal;
use std::alloc::Global;
use txn_types::Command;

/// The most bytes of a script.
const MOST_BYTES: usize = 16_777_216;

/// The commands that a script spells.
pub fn read_form(alloc: Global, script: &[u8]) -> Result<Vec<Command>, FormRefusal>
    ensures accepted { IfOk result (λ commands. form_of script.now ≡ Accepted commands.items) }
    ensures later { (line : ℕ) → result ≡ Err (FormRefusal.Later line) → form_of script.now ≡ Later line }
{
    if script.len() > MOST_BYTES {
        return Err(FormRefusal::Later { line: 0 });
    }
    let mut reader = FormReader::new(alloc);
    let mut rest = script;
    'lines: while !rest.is_empty() {
        let (line, after) = split_line(rest);
        reader.read(alloc, line)?;
        rest = after;
    }
    reader.finish()
}

/// The first line of these bytes, and what follows its line feed.
fn split_line(bytes: &[u8]) -> (&[u8], &[u8])
    requires { 0 < length bytes.now }
    ensures lines { lines_of bytes.now ≡ result.0.now ∷ lines_of result.1.now }
    ensures shorter { length result.1.now < length bytes.now }
{
    for (at, byte) in bytes.iter().enumerate() {
        if *byte == b'\n' {
            return (&bytes[..at], &bytes[at + 1..]);
        }
    }
    (bytes, &[])
}
