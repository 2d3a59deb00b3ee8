//! Which version decides what is at a path.
ghost use Rattle.std.specs.Prelude.{◌≡◌, ℕ, ◌≤◌, ◌||◌, ◌&&◌, nat_lt, nat_eq, length, take, option_map, IfOk, IfSome};
ghost use Rattle.doc_path.specs.Path.{Parts};
ghost use Rattle.regular_records.specs.Store.{first_until as first_on, first_at, path_versions_at, newest_upto, word_version, IsLonger};
ghost use Rattle.txn_types.specs.Writes.{set_at};
ghost use Rattle.regular_records.specs.Records.{later as later_of, write_of};

use crate::store::{PathVersions, VersionStore};
use crate::version_key::VersionKey;
use crate::version_value::VersionValue;
use doc_path::PathPart;
use docdb_base::{Memory, TryCopy};
use hybrid_time::HybridTime;
use std::alloc::Global;
use txn_types::{Bytes, Op};

/// A version that decides what is at a path, or at something beneath its own.
#[derive(Clone, Copy, Debug)]
pub struct Word<'a> {
    /// How many parts its path has.
    pub parts: usize,
    pub at: &'a HybridTime,
    pub number: u32,
    pub value: &'a VersionValue,
}

/// The value at a path at the time t.
pub fn value_at(
    alloc: Global,
    paths: &VersionStore,
    path: &[PathPart],
    t: HybridTime,
) -> Result<Option<Bytes>, Memory>
    ensures { IfOk result (λ found. found ≡ set_at path.now (option_map write_of (newest_upto t path.now paths.now (length path.now)))) }
{
    match newest_word(paths, path, t) {
        Some(word) => word_value(alloc, &word, path.len()),
        None => Ok(None),
    }
}

/// The value that a word sets at a path of so many parts.
pub fn word_value(alloc: Global, word: &Word<'_>, parts: usize) -> Result<Option<Bytes>, Memory>
    ensures { (p : Parts) → length p ≡ parts → word.now.parts ≤ parts → IfOk result (λ found. found ≡ set_at p (Some (write_of (word_version p word.now)))) }
{
    if word.parts < parts {
        return Ok(None);
    }
    match &word.value.op {
        Op::Put(bytes) => Ok(Some(bytes.try_copy(alloc)?)),
        Op::Delete => Ok(None),
    }
}

/// The newest version up to t whose path is a prefix of this one. It goes down the prefixes.
pub fn newest_word<'a>(
    paths: &'a VersionStore,
    path: &[PathPart],
    t: HybridTime,
) -> Option<Word<'a>>
    ensures value { option_map (word_version path.now) result ≡ newest_upto t path.now paths.now (length path.now) }
    ensures parts { IfSome result (λ w. w.parts ≤ length path.now) }
{
    let mut word: Option<Word<'a>> = None;
    for i in 0..path.len() {
        word = later(word, word_at(paths, &path[..i + 1], t));
    }
    word
}

/// The newest version up to t at exactly this path.
pub fn word_at<'a>(paths: &'a VersionStore, path: &[PathPart], t: HybridTime) -> Option<Word<'a>>
    ensures value { (p : Parts) → option_map (word_version p) result ≡ first_at t (take (length path.now) p) (path_versions_at path.now paths.now) }
    ensures parts { IfSome result (λ w. w.parts ≡ length path.now) }
{
    match paths.get(path) {
        Some(versions) => first_until(versions, path.len(), t),
        None => None,
    }
}

/// The newest version of one path up to t.
pub fn first_until<'a>(versions: &'a PathVersions, parts: usize, t: HybridTime) -> Option<Word<'a>>
    ensures value { (p : Parts) → option_map (word_version p) result ≡ first_on t (take parts p) versions.now.entries }
    ensures parts { IfSome result (λ w. w.parts ≡ parts) }
{
    let from = VersionKey {
        at: t,
        number: u32::MAX,
    };
    for (key, slot) in versions.range(from..) {
        if let Some(value) = slot {
            return Some(Word {
                parts,
                at: &key.at,
                number: key.number(),
                value,
            });
        }
    }
    None
}

/// The newer of two, the second where they tie: its path is longer.
pub fn later<'a>(first: Option<Word<'a>>, second: Option<Word<'a>>) -> Option<Word<'a>>
    ensures value { (p : Parts) → IsLonger p first.entry second.entry → option_map (word_version p) result ≡ later_of (option_map (word_version p) first.entry) (option_map (word_version p) second.entry) }
    ensures parts { (n : ℕ) → IfSome first.entry (λ w. w.parts ≤ n) → IfSome second.entry (λ w. w.parts ≤ n) → IfSome result (λ w. w.parts ≤ n) }
{
    match (first, second) {
        (Some(word), Some(other)) => {
            if is_newer(&word, &other) {
                Some(word)
            } else {
                Some(other)
            }
        }
        (None, other) => other,
        (word, None) => word,
    }
}

fn is_newer(word: &Word<'_>, other: &Word<'_>) -> bool
    ensures { result ≡ (nat_lt other.now.at.now word.now.at.now || (nat_eq other.now.at.now word.now.at.now && nat_lt other.now.number word.now.number)) }
{
    *other.at < *word.at || (*other.at == *word.at && other.number < word.number)
}
