//! The commands of lines.
ghost use Rattle.std.specs.Prelude.{◌≡◌};
ghost use Rattle.txn_types.specs.Plan.{IsCluster};
ghost use Rattle.script_text.specs.Commands.{alone, apply_of, begin_of, clock_of, clock_with, command_of, del_of, paths, put_of, read_of, read_paths};
ghost use Rattle.script_text.specs.Commands.{restart_of, scan_of, scan_path, single_del_of, single_put_of, strict_of, written};
ghost use Rattle.script_text.specs.Outcomes.{Gives, texts};

use crate::fault::Fault;
use crate::numbers::{LARGEST, number_in, small_in};
use crate::operands::{actor, or_number, path, priority, priority_text, tablet, value};
use crate::verb::Verb;
use crate::why::Why;
use docdb_base::Seq;
use std::alloc::Global;
use txn_data::{Bytes, Command, Config, Place};

/// The refusal of a command that has another number of words.
const WORDS: Fault = Fault::Refused(Why::Words);

fn begin_of(words: &[&[u8]]) -> Result<Command, Fault>
    ensures { Gives (λ c. c) result (begin_of (texts words.now)) }
{
    match words {
        [] => Ok(Command::Begin { priority: 0 }),
        [option] => {
            let text = priority_text(option)?;
            let priority = priority(text)?;
            Ok(Command::Begin { priority })
        }
        _ => Err(WORDS),
    }
}

/// A path and a value.
fn written(
    alloc: Global,
    config: &Config,
    word: &[u8],
    other: &[u8],
) -> Result<(Place, Bytes), Fault>
    requires { IsCluster config.now }
    ensures { Gives (λ w. w) result (written config.now word.now other.now) }
{
    let place = path(alloc, config, word)?;
    let value = value(alloc, other)?;
    Ok((place, value))
}

fn put_of(alloc: Global, config: &Config, words: &[&[u8]]) -> Result<Command, Fault>
    requires { IsCluster config.now }
    ensures { Gives (λ c. c) result (put_of config.now (texts words.now)) }
{
    let [word, other] = words else {
        return Err(WORDS);
    };
    let (place, value) = written(alloc, config, word, other)?;
    Ok(Command::Put { place, value })
}

fn del_of(alloc: Global, config: &Config, words: &[&[u8]]) -> Result<Command, Fault>
    requires { IsCluster config.now }
    ensures { Gives (λ c. c) result (del_of config.now (texts words.now)) }
{
    let [word] = words else {
        return Err(WORDS);
    };
    let place = path(alloc, config, word)?;
    Ok(Command::Del { place })
}

/// A command without words.
fn alone(told: Command, words: &[&[u8]]) -> Result<Command, Fault>
    ensures { Gives (λ c. c) result (alone told (texts words.now)) }
{
    if words.is_empty() {
        Ok(told)
    } else {
        Err(WORDS)
    }
}

fn paths(alloc: Global, config: &Config, words: &[&[u8]]) -> Result<Vec<Place>, Fault>
    requires { IsCluster config.now }
    ensures { Gives (λ v. v.items) result (paths config.now (texts words.now)) }
{
    let mut places = Vec::new(alloc);
    'paths: for word in words {
        places.push(path(alloc, config, word)?)?;
    }
    Ok(places)
}

/// The read of one to sixteen paths.
fn read_paths(
    alloc: Global,
    config: &Config,
    strict: bool,
    words: &[&[u8]],
) -> Result<Command, Fault>
    requires { IsCluster config.now }
    ensures { Gives (λ c. c) result (read_paths config.now strict (texts words.now)) }
{
    if words.len() < 1 || 16 < words.len() {
        return Err(WORDS);
    }
    let places = paths(alloc, config, words)?;
    Ok(Command::Read {
        strict,
        places: Seq::of(places),
    })
}

fn scan_path(
    alloc: Global,
    config: &Config,
    strict: bool,
    words: &[&[u8]],
) -> Result<Command, Fault>
    requires { IsCluster config.now }
    ensures { Gives (λ c. c) result (scan_path config.now strict (texts words.now)) }
{
    let [word] = words else {
        return Err(WORDS);
    };
    let place = path(alloc, config, word)?;
    Ok(Command::Scan { strict, place })
}

/// Whether the first word is `norestart`, and the words after it, or all.
fn strict_of<'a, 'b>(words: &'a [&'b [u8]]) -> (bool, &'a [&'b [u8]])
    ensures { record { 0 = result.0; 1 = texts result.1.now } ≡ strict_of (texts words.entry.now) }
{
    match words {
        [word, others @ ..] if *word == b"norestart".as_slice() => (true, others),
        _ => (false, words),
    }
}

fn single_put_of(alloc: Global, config: &Config, words: &[&[u8]]) -> Result<Command, Fault>
    requires { IsCluster config.now }
    ensures { Gives (λ c. c) result (single_put_of config.now (texts words.now)) }
{
    match words {
        [word, other] => {
            let (place, value) = written(alloc, config, word, other)?;
            Ok(Command::SinglePut {
                place,
                value,
                priority: 0,
            })
        }
        [word, other, option] => {
            let text = priority_text(option)?;
            let (place, value) = written(alloc, config, word, other)?;
            let priority = priority(text)?;
            Ok(Command::SinglePut {
                place,
                value,
                priority,
            })
        }
        _ => Err(WORDS),
    }
}

fn single_del_of(alloc: Global, config: &Config, words: &[&[u8]]) -> Result<Command, Fault>
    requires { IsCluster config.now }
    ensures { Gives (λ c. c) result (single_del_of config.now (texts words.now)) }
{
    match words {
        [word] => {
            let place = path(alloc, config, word)?;
            Ok(Command::SingleDel { place, priority: 0 })
        }
        [word, option] => {
            let text = priority_text(option)?;
            let place = path(alloc, config, word)?;
            let priority = priority(text)?;
            Ok(Command::SingleDel { place, priority })
        }
        _ => Err(WORDS),
    }
}

fn restart_of(config: &Config, words: &[&[u8]]) -> Result<Command, Fault>
    requires { IsCluster config.now }
    ensures { Gives (λ c. c) result (restart_of config.now (texts words.now)) }
{
    let [word] = words else {
        return Err(WORDS);
    };
    let actor = or_number(actor(config, word))?;
    Ok(Command::Restart { actor })
}

fn apply_of(config: &Config, words: &[&[u8]]) -> Result<Command, Fault>
    requires { IsCluster config.now }
    ensures { Gives (λ c. c) result (apply_of config.now (texts words.now)) }
{
    let [word] = words else {
        return Err(WORDS);
    };
    let tablet = or_number(tablet(config, word))?;
    Ok(Command::Apply { tablet })
}

#[tactic(auto, using(crate::proofs::Steps::refused_on))]
fn clock_with(config: &Config, word: &[u8], other: &[u8]) -> Result<Command, Fault>
    requires { IsCluster config.now }
    ensures { Gives (λ c. c) result (clock_with config.now word.now other.now) }
{
    let node = or_number(small_in(0, config.nodes - 1, word))?;
    let micros = or_number(number_in(0, LARGEST, other))?;
    Ok(Command::Clock { node, micros })
}

fn clock_of(config: &Config, words: &[&[u8]]) -> Result<Command, Fault>
    requires { IsCluster config.now }
    ensures { Gives (λ c. c) result (clock_of config.now (texts words.now)) }
{
    let [word, other] = words else {
        return Err(WORDS);
    };
    clock_with(config, word, other)
}

/// The command of a verb and the words after it.
pub(crate) fn command_of(
    alloc: Global,
    config: &Config,
    verb: Verb,
    words: &[&[u8]],
) -> Result<Command, Fault>
    requires { IsCluster config.now }
    ensures { Gives (λ c. c) result (command_of config.now verb (texts words.now)) }
{
    match verb {
        Verb::Begin => begin_of(words),
        Verb::Put => put_of(alloc, config, words),
        Verb::Del => del_of(alloc, config, words),
        Verb::Commit => alone(Command::Commit, words),
        Verb::Abort => alone(Command::Abort, words),
        Verb::Read => {
            let (strict, others) = strict_of(words);
            read_paths(alloc, config, strict, others)
        }
        Verb::Scan => {
            let (strict, others) = strict_of(words);
            scan_path(alloc, config, strict, others)
        }
        Verb::SinglePut => single_put_of(alloc, config, words),
        Verb::SingleDel => single_del_of(alloc, config, words),
        Verb::Restart => restart_of(config, words),
        Verb::Apply => apply_of(config, words),
        Verb::Clock => clock_of(config, words),
    }
}
