//! The versioned key that bytes spell.
ghost use Rattle.std.specs.Prelude.{◌≡◌, ◌<◌, ◌≤◌, ◌-◌, ◌∷◌, [], ℕ, List, Ok, length, IfOk, IsTrue};
ghost use Rattle.doc_value.specs.Reading.{Gives, onto};
ghost use Rattle.sub_doc_key.specs.declared.sub_doc_key.SubDocKey.{SubDocKey as Key};
ghost use Rattle.sub_doc_key.specs.Spelling.{spelling, HasSpelling};
ghost use Rattle.sub_doc_key.specs.Reading.{before, is_subkey_tag, first_at, subkey_at, subkeys_at, version_at, versioned_at, versioned_of};

use crate::sub_doc_key::SubDocKey;
use crate::tag;
use doc_key::read_key;
use doc_path::Path;
use doc_value::{KeyRefusal, read_u32, read_u64, read_value, tag as value_tag};
use hybrid_time::HybridTime;
use std::alloc::Global;

/// The most parts of a path: a document key and four subkeys.
const MOST_PARTS: usize = 5;

/// The bytes that were read, where `rest` are left.
fn before<'a>(bytes: &'a [u8], rest: &[u8]) -> &'a [u8]
    ensures { result.now ≡ before bytes.now rest.now }
{
    let taken = bytes.len().saturating_sub(rest.len());
    &bytes[..taken]
}

fn is_subkey_tag(tag: u8) -> bool
    ensures { result ≡ is_subkey_tag tag }
{
    matches!(
        tag,
        value_tag::FALSE
            | value_tag::INT64
            | value_tag::COLUMN_ID
            | value_tag::STRING
            | value_tag::TRUE
    )
}

/// The document key at the front of `bytes`, as a path.
#[tactic(auto, unfolding(crate::specs::Reading::first_at))]
fn first_at(alloc: Global, whole: usize, bytes: &[u8]) -> Result<(Path, &[u8]), KeyRefusal>
    requires { length bytes.now ≤ whole }
    ensures value { Gives (λ x. (x.0, x.1.now)) result (first_at whole bytes.now) }
    ensures rest { IfOk result (λ x. length x.1.now ≤ length bytes.now) }
    ensures one { IfOk result (λ x. length x.0 ≡ 1) }
{
    let (_, rest) = read_key(alloc, whole, bytes)?;
    let path = Path::of(alloc, before(bytes, rest))?;
    Ok((path, rest))
}

/// The bytes of the subkey at the front of `bytes`, and those after it.
#[tactic(auto, unfolding(crate::specs::Reading::subkey_at))]
fn subkey_at(alloc: Global, whole: usize, bytes: &[u8]) -> Result<(&[u8], &[u8]), KeyRefusal>
    requires { length bytes.now ≤ whole }
    ensures value { Gives (λ x. (x.0.now, x.1.now)) result (subkey_at whole bytes.now) }
    ensures rest { IfOk result (λ x. length x.1.now < length bytes.now) }
{
    let (_, rest) = read_value(alloc, whole, bytes)?;
    Ok((before(bytes, rest), rest))
}

/// The path of which `path` is read and the other subkeys are not, and the bytes after the tag that ends it.
fn subkeys_at(
    alloc: Global,
    whole: usize,
    path: Path,
    bytes: &[u8],
) -> Result<(Path, &[u8]), KeyRefusal>
    requires { length bytes.now ≤ whole }
    ensures value { Gives (λ x. (x.0, x.1.now)) result (onto path (subkeys_at whole (5 - length path) bytes.now)) }
    ensures rest { IfOk result (λ x. length x.1.now ≤ length bytes.now) }
{
    let mut path = path;
    let mut rest = bytes;
    while let Some((tag, after)) = rest.split_first() {
        if *tag == tag::HYBRID_TIME {
            return Ok((path, after));
        }
        if path.parts() == MOST_PARTS && is_subkey_tag(*tag) {
            return Err(KeyRefusal::TooMany {
                at: (whole - rest.len()) as u64,
            });
        }
        let (subkey, after) = subkey_at(alloc, whole, rest)?;
        path.push(subkey).map_err(|_| KeyRefusal::Memory)?;
        rest = after;
    }
    Err(KeyRefusal::Truncated { at: whole as u64 })
}

/// The hybrid time whose bits these are.
fn time_of(bits: u64) -> HybridTime
    ensures { result ≡ bits }
{
    HybridTime::of(bits / 4096, (bits % 4096) as u16)
}

#[tactic(auto, unfolding(crate::specs::Reading::version_at))]
fn version_at(whole: usize, path: Path, bytes: &[u8]) -> Result<(SubDocKey, &[u8]), KeyRefusal>
    ensures value { Gives (λ x. (x.0, x.1.now)) result (version_at whole path bytes.now) }
    ensures rest { IfOk result (λ x. length x.1.now ≤ length bytes.now) }
{
    let (at, rest) = read_u64(whole, bytes)?;
    let (number, rest) = read_u32(whole, rest)?;
    Ok((
        SubDocKey {
            path,
            at: time_of(!at),
            number: !number,
        },
        rest,
    ))
}

#[tactic(auto, unfolding(crate::specs::Reading::versioned_at))]
fn versioned_at(alloc: Global, whole: usize, bytes: &[u8]) -> Result<(SubDocKey, &[u8]), KeyRefusal>
    requires { length bytes.now ≤ whole }
    ensures value { Gives (λ x. (x.0, x.1.now)) result (versioned_at whole bytes.now) }
    ensures rest { IfOk result (λ x. length x.1.now ≤ length bytes.now) }
{
    let (first, rest) = first_at(alloc, whole, bytes)?;
    let (path, rest) = subkeys_at(alloc, whole, first, rest)?;
    version_at(whole, path, rest)
}

#[tactic(auto, unfolding(crate::specs::Reading::versioned_of, doc_value::specs::Reading::ended))]
fn versioned_of(alloc: Global, bytes: &[u8]) -> Result<SubDocKey, KeyRefusal>
    ensures { Gives (λ x. x) result (versioned_of bytes.now) }
{
    let (key, rest) = versioned_at(alloc, bytes.len(), bytes)?;
    if !rest.is_empty() {
        return Err(KeyRefusal::Spare {
            at: (bytes.len() - rest.len()) as u64,
        });
    }
    Ok(key)
}

/// The versioned key that the bytes spell, all of them; or the first fault from the left.
pub fn decode(alloc: Global, bytes: &[u8]) -> Result<SubDocKey, KeyRefusal>
    // What is read is spelled so.
    ensures found { IfOk result (λ key. HasSpelling key × (bytes.now ≡ spelling key)) }
    // What is spelled so is read, unless memory runs out.
    ensures only { (key : Key) → HasSpelling key → bytes.now ≡ spelling key → Gives (λ x. x) result (Ok key) }
    // Which refusal it is: the first fault.
    ensures exact { Gives (λ x. x) result (versioned_of bytes.now) }
{
    versioned_of(alloc, bytes)
}
