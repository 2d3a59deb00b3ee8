//! The sessions that lines begin with.
ghost use Rattle.std.specs.Prelude.{◌≡◌, ◌≤◌, IfOk, IfSome, Option, option_map, length, vec_len};
ghost use Rattle.script_text.specs.Commands.{first_word, flags_over, no_flags, session_in, session_of, with_flag};
ghost use Rattle.script_text.specs.Lines.{lines_of};
ghost use Rattle.script_text.specs.Words.{words_of};

use crate::lines::cut_line;
use crate::marks::Marks;
use crate::numbers::small_in;
use crate::pieces::cut;
use docdb_base::Memory;
use std::alloc::Global;

/// The session of a word: its number, and a colon at once.
pub(crate) fn session_of(word: &[u8]) -> Option<u32>
    ensures value { result ≡ session_of word.now }
    ensures low { IfSome result (λ i. 1 ≤ i) }
    ensures high { IfSome result (λ i. i ≤ 1000) }
{
    match word {
        [number @ .., b':'] => small_in(1, 1_000, number),
        _ => None,
    }
}

/// The first word of a line.
fn first_word(line: &[u8]) -> Option<&[u8]>
    ensures { option_map (λ w. w.now) result ≡ first_word (words_of line.now) }
{
    let mut rest = line;
    'words: loop {
        let (word, mark, after) = cut(Marks::OfLine, rest);
        if !word.is_empty() {
            return Some(word);
        }
        if mark == 0 {
            return None;
        }
        rest = after;
    }
}

/// The session that a line begins with.
fn session_in(line: &[u8]) -> Option<u32>
    ensures value { result ≡ session_in (words_of line.now) }
    ensures high { IfSome result (λ i. i ≤ 1000) }
{
    session_of(first_word(line)?)
}

/// Sets the flag of a session.
fn set_flag(flags: &mut Vec<bool>, session: Option<u32>)
    requires room { vec_len flags.old ≡ 1001 }
    requires high { IfSome session (λ i. i ≤ 1000) }
    ensures flags { flags.new.items ≡ with_flag flags.old.items session }
    ensures room { vec_len flags.new ≡ 1001 }
{
    if let Some(session) = session {
        flags[session as usize] = true;
    }
}

/// The flags of the sessions that lines of a body begin with, each at the number of its session.
pub(crate) fn flags_of(alloc: Global, body: &[u8]) -> Result<Vec<bool>, Memory>
    ensures flags { IfOk result (λ v. v.items ≡ flags_over no_flags (lines_of body.now)) }
    ensures room { IfOk result (λ v. vec_len v ≡ 1001) }
{
    let mut flags = vec![in alloc; false; 1_001]?;
    let mut rest = body;
    'lines: while !rest.is_empty() {
        let (line, after) = cut_line(rest);
        set_flag(&mut flags, session_in(line));
        rest = after;
    }
    Ok(flags)
}
