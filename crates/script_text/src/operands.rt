//! The words behind a verb, one by one.
ghost use Rattle.std.specs.Prelude.{◌≡◌, ◌≤◌, ◌<◌, ◌-◌, IfSome};
ghost use Rattle.txn_types.specs.Plan.{IsCluster};
ghost use Rattle.script_text.specs.Commands.{actor, numbered, or_why, path, priority, priority_text, tablet, value};
ghost use Rattle.script_text.specs.Outcomes.{Gives};
ghost use Rattle.script_text.specs.declared.why.Why.TheVariants as why;

use crate::fault::Fault;
use crate::no_term::NoTerm;
use crate::numbers::small_in;
use crate::paths::place_of;
use crate::terms::value_of;
use crate::why::Why;
use std::alloc::Global;
use txn_data::{Actor, Bytes, Config, Place};

/// The number, or the reason `number`.
pub(crate) fn or_number<T: Drop>(number: Option<T>) -> Result<T, Fault>
    ensures { Gives (λ x. x) result (or_why why.Number number) }
{
    match number {
        Some(number) => Ok(number),
        None => Err(Fault::Refused(Why::Number)),
    }
}

pub(crate) fn path(alloc: Global, config: &Config, word: &[u8]) -> Result<Place, Fault>
    requires { IsCluster config.now }
    ensures { Gives (λ p. p) result (path config.now word.now) }
{
    match place_of(alloc, config.tablets, word) {
        Ok(place) => Ok(place),
        Err(NoTerm::Other) => Err(Fault::Refused(Why::Path)),
        Err(NoTerm::Memory) => Err(Fault::Memory),
    }
}

pub(crate) fn value(alloc: Global, word: &[u8]) -> Result<Bytes, Fault>
    ensures { Gives (λ b. b) result (value word.now) }
{
    match value_of(alloc, word) {
        Ok(bytes) => Ok(bytes),
        Err(NoTerm::Other) => Err(Fault::Refused(Why::Value)),
        Err(NoTerm::Memory) => Err(Fault::Memory),
    }
}

/// What follows `prio=`, the optional word of a priority.
pub(crate) fn priority_text(word: &[u8]) -> Result<&[u8], Fault>
    ensures { Gives (λ t. t.now) result (priority_text word.now) }
{
    if word.starts_with(b"prio=") {
        Ok(&word[5..])
    } else {
        Err(Fault::Refused(Why::Words))
    }
}

pub(crate) fn priority(text: &[u8]) -> Result<u32, Fault>
    ensures { Gives (λ n. n) result (priority text.now) }
{
    or_number(small_in(0, u32::MAX, text))
}

/// The number behind a letter, below `many`.
pub(crate) fn numbered(letter: u8, many: u32, word: &[u8]) -> Option<u32>
    requires { 1 ≤ many }
    ensures value { result ≡ numbered letter many word.now }
    ensures below { IfSome result (λ n. n < many) }
{
    match word {
        [first, digits @ ..] if *first == letter => small_in(0, many - 1, digits),
        _ => None,
    }
}

/// The tablet of a word: t and its number.
pub(crate) fn tablet(config: &Config, word: &[u8]) -> Option<u32>
    requires { IsCluster config.now }
    ensures { result ≡ tablet config.now word.now }
{
    numbered(b't', config.tablets, word)
}

/// The tablet or the status tablet of a word.
pub(crate) fn actor(config: &Config, word: &[u8]) -> Option<Actor>
    requires { IsCluster config.now }
    ensures { result ≡ actor config.now word.now }
{
    match tablet(config, word) {
        Some(number) => Some(Actor::Tablet(number)),
        None => {
            let number = numbered(b's', config.status, word)?;
            Some(Actor::Status(number))
        }
    }
}
