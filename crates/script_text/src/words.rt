//! Lines are parted into words.
ghost use Rattle.std.specs.Prelude.{◌≡◌, IfOk, map};
ghost use Rattle.script_text.specs.Words.{words_of};

use crate::marks::Marks;
use crate::pieces::cut;
use docdb_base::Memory;
use std::alloc::Global;

/// The words of a line.
pub(crate) fn words_of(alloc: Global, line: &[u8]) -> Result<Vec<&[u8]>, Memory>
    ensures { IfOk result (λ words. map (λ w. w.now) words.items ≡ words_of line.now) }
{
    let mut words = Vec::new(alloc);
    let mut rest = line;
    'words: loop {
        let (word, mark, after) = cut(Marks::OfLine, rest);
        if !word.is_empty() {
            words.push(word)?;
        }
        if mark == 0 {
            return Ok(words);
        }
        rest = after;
    }
}
