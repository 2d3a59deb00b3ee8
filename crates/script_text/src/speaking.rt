//! What the lines of a body say.
ghost use Rattle.std.specs.Prelude.{◌≡◌, ◌≤◌, IfSome, length};
ghost use Rattle.txn_types.specs.Plan.{IsCluster};
ghost use Rattle.script_text.specs.Commands.{begins_remark, go_in, go_of, go_often, go_once, is_go, is_passed, line_of, mover, spoken, told_of};
ghost use Rattle.script_text.specs.Outcomes.{Gives, texts};

use crate::commands::command_of;
use crate::fault::Fault;
use crate::line::Line;
use crate::numbers::small_in;
use crate::operands::{numbered, or_number};
use crate::sessions::session_of;
use crate::verbs::verb_of;
use crate::why::Why;
use std::alloc::Global;
use txn_data::{Config, GoLine, Mover, Schedule};

/// The applier or the session of a word.
fn mover(config: &Config, flags: &[bool], word: &[u8]) -> Option<Mover>
    requires cluster { IsCluster config.now }
    requires room { length flags.now ≡ 1001 }
    ensures { result ≡ mover config.now flags.now word.now }
{
    if let Some(number) = numbered(b'a', config.tablets, word) {
        return Some(Mover::Applier(number));
    }
    let session = small_in(1, 1_000, word)?;
    if flags[session as usize] {
        Some(Mover::Session(session))
    } else {
        None
    }
}

fn go_once(config: &Config, flags: &[bool], word: &[u8]) -> Result<GoLine, Fault>
    requires cluster { IsCluster config.now }
    requires room { length flags.now ≡ 1001 }
    ensures { Gives (λ g. g) result (go_once config.now flags.now word.now) }
{
    let who = or_number(mover(config, flags, word))?;
    Ok(GoLine { who, count: 1 })
}

#[tactic(auto, using(crate::proofs::Steps::refused_on))]
fn go_often(config: &Config, flags: &[bool], word: &[u8], other: &[u8]) -> Result<GoLine, Fault>
    requires cluster { IsCluster config.now }
    requires room { length flags.now ≡ 1001 }
    ensures { Gives (λ g. g) result (go_often config.now flags.now word.now other.now) }
{
    let who = or_number(mover(config, flags, word))?;
    let count = or_number(small_in(1, 1_000_000, other))?;
    Ok(GoLine { who, count })
}

fn go_of(config: &Config, flags: &[bool], words: &[&[u8]]) -> Result<GoLine, Fault>
    requires cluster { IsCluster config.now }
    requires room { length flags.now ≡ 1001 }
    ensures { Gives (λ g. g) result (go_of config.now flags.now (texts words.now)) }
{
    match words {
        [word] => go_once(config, flags, word),
        [word, other] => go_often(config, flags, word, other),
        _ => Err(Fault::Refused(Why::Words)),
    }
}

/// A line that moves a mover, which may stand only where the schedule goes by such lines.
fn go_in(config: &Config, flags: &[bool], words: &[&[u8]]) -> Result<Line, Fault>
    requires cluster { IsCluster config.now }
    requires room { length flags.now ≡ 1001 }
    ensures { Gives (λ l. l) result (go_in config.now.schedule config.now flags.now (texts words.now)) }
{
    match config.schedule {
        Schedule::Go => {
            let line = go_of(config, flags, words)?;
            Ok(Line::Goes(line))
        }
        _ => Err(Fault::Refused(Why::Command)),
    }
}

fn told_of(alloc: Global, config: &Config, session: u32, words: &[&[u8]]) -> Result<Line, Fault>
    requires { IsCluster config.now }
    ensures { Gives (λ l. l) result (told_of config.now session (texts words.now)) }
{
    let Some((verb, others)) = verb_of(words) else {
        return Err(Fault::Refused(Why::Command));
    };
    let command = command_of(alloc, config, verb, others)?;
    Ok(Line::Told { session, command })
}

/// Whether the first word says that a mover goes on.
pub(crate) fn is_go(words: &[&[u8]]) -> bool
    ensures { result ≡ is_go (texts words.now) }
{
    match words {
        [word, ..] => *word == b"@go".as_slice(),
        [] => false,
    }
}

/// Whether the line has no words, or is a remark.
pub(crate) fn is_passed(words: &[&[u8]]) -> bool
    ensures { result ≡ is_passed (texts words.now) }
{
    match words {
        [word, ..] => begins_remark(word),
        [] => true,
    }
}

fn begins_remark(word: &[u8]) -> bool
    ensures { result ≡ begins_remark word.now }
{
    match word {
        [first, ..] => *first == b'#',
        [] => false,
    }
}

/// What a line says that is not passed over.
fn spoken(alloc: Global, config: &Config, flags: &[bool], words: &[&[u8]]) -> Result<Line, Fault>
    requires cluster { IsCluster config.now }
    requires room { length flags.now ≡ 1001 }
    ensures { Gives (λ l. l) result (spoken config.now flags.now (texts words.now)) }
{
    let [word, others @ ..] = words else {
        return Ok(Line::Passed);
    };
    if is_go(words) {
        return go_in(config, flags, others);
    }
    match session_of(word) {
        Some(session) => told_of(alloc, config, session, others),
        None => Err(Fault::Refused(Why::Session)),
    }
}

/// What a line says, by its words.
pub(crate) fn line_of(
    alloc: Global,
    config: &Config,
    flags: &[bool],
    words: &[&[u8]],
) -> Result<Line, Fault>
    requires cluster { IsCluster config.now }
    requires room { length flags.now ≡ 1001 }
    ensures { Gives (λ l. l) result (line_of config.now flags.now (texts words.now)) }
{
    if is_passed(words) {
        Ok(Line::Passed)
    } else {
        spoken(alloc, config, flags, words)
    }
}
