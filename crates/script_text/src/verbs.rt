//! The verbs of command lines.
ghost use Rattle.std.specs.Prelude.{◌≡◌, option_map};
ghost use Rattle.script_text.specs.Commands.{single_named, single_verb, verb_named, verb_of};
ghost use Rattle.script_text.specs.Outcomes.{texts};

use crate::verb::Verb;

/// The verb of one word.
fn verb_named(word: &[u8]) -> Option<Verb>
    ensures { result ≡ verb_named word.now }
{
    if word == b"begin".as_slice() {
        return Some(Verb::Begin);
    }
    if word == b"put".as_slice() {
        return Some(Verb::Put);
    }
    if word == b"del".as_slice() {
        return Some(Verb::Del);
    }
    if word == b"commit".as_slice() {
        return Some(Verb::Commit);
    }
    if word == b"abort".as_slice() {
        return Some(Verb::Abort);
    }
    if word == b"read".as_slice() {
        return Some(Verb::Read);
    }
    if word == b"scan".as_slice() {
        return Some(Verb::Scan);
    }
    if word == b"restart".as_slice() {
        return Some(Verb::Restart);
    }
    if word == b"apply".as_slice() {
        return Some(Verb::Apply);
    }
    if word == b"clock".as_slice() {
        return Some(Verb::Clock);
    }
    None
}

/// The verb behind `single`.
fn single_named(word: &[u8]) -> Option<Verb>
    ensures { result ≡ single_named word.now }
{
    match word {
        b"put" => Some(Verb::SinglePut),
        b"del" => Some(Verb::SingleDel),
        _ => None,
    }
}

fn single_verb<'a, 'b>(words: &'a [&'b [u8]]) -> Option<(Verb, &'a [&'b [u8]])>
    ensures { option_map (λ x. (x.0, texts x.1.now)) result ≡ single_verb (texts words.entry.now) }
{
    let (word, others) = words.split_first()?;
    Some((single_named(word)?, others))
}

/// The verb of a line behind its session, and the words after it.
pub(crate) fn verb_of<'a, 'b>(words: &'a [&'b [u8]]) -> Option<(Verb, &'a [&'b [u8]])>
    ensures { option_map (λ x. (x.0, texts x.1.now)) result ≡ verb_of (texts words.entry.now) }
{
    let (word, others) = words.split_first()?;
    if *word == b"single".as_slice() {
        single_verb(others)
    } else {
        Some((verb_named(word)?, others))
    }
}
