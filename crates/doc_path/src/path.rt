//! A path.
ghost use Rattle.std.specs.Prelude.{◌≡◌, ◌↔◌, ◌∷◌, ◌++◌, [], ◌<◌, ◌≤◌, length, slice_get, Ok, Err, Some, IfOk, OnOk, OnErr};
ghost use Rattle.doc_path.specs.Path.{is_prefix, related, path_order};

use crate::path_part::PathPart;
use crate::path_refusal::PathRefusal;
use docdb_base::{Memory, TryCopy};
use std::alloc::Global;
use std::cmp::Ordering;
use std::marker::Model;

/// A path: one to five byte strings, the first an encoded document key, the others encoded subkeys. Contracts see
/// the list of its parts.
#[derive(Debug, Drop)]
pub struct Path {
    alloc: Global,
    parts: Vec<PathPart>,
}

impl Model for Path {
    ghost use Rattle.std.specs.Prelude.{ℕ, List, length, ◌≤◌};

    ghost Value = { List (List ℕ) };

    ghost view = { λ p. p.parts.items };

    ghost invariant = { λ p. (1 ≤ length p.parts.items) × (length p.parts.items ≤ 5) };
}

/// The most parts that a path has.
const MOST_PARTS: usize = 5;

impl Path {
    /// The path of one part.
    pub fn of(alloc: Global, first: &[u8]) -> Result<Path, Memory>
        ensures { IfOk result (λ p. p ≡ first.now ∷ []) }
    {
        let mut parts = Vec::new(alloc);
        parts.push(PathPart::of(first.to_vec(alloc)?))?;
        Ok(Path { alloc, parts })
    }

    /// The path of these parts, one to five, of which it makes copies.
    pub fn of_parts(alloc: Global, parts: &[PathPart]) -> Result<Path, Memory>
        requires least { 1 ≤ length parts.now }
        requires most { length parts.now ≤ 5 }
        ensures { IfOk result (λ p. p ≡ parts.now) }
    {
        let parts = copies(alloc, parts)?;
        Ok(Path { alloc, parts })
    }

    /// Puts a part at the end. After a refusal the path is as before. A path of five parts is refused as such, also
    /// where there is no memory.
    pub fn push(&mut self, part: &[u8]) -> Result<(), PathRefusal>
        ensures ok { OnOk result (self.new ≡ self.old ++ part.now ∷ []) }
        ensures too_many { (result ≡ Err PathRefusal.TooMany) ↔ (length self.old ≡ 5) }
        ensures refused { OnErr result (self.new ≡ self.old) }
    {
        if self.parts.len() == MOST_PARTS {
            return Err(PathRefusal::TooMany);
        }
        let bytes = part.to_vec(self.alloc).map_err(|_| PathRefusal::Memory)?;
        self.parts
            .push(PathPart::of(bytes))
            .map_err(|_| PathRefusal::Memory)
    }

    /// How many parts it has, one to five. It takes no memory.
    pub fn parts(&self) -> usize
        ensures value { result ≡ length self.now }
        ensures least { 1 ≤ result }
        ensures most { result ≤ 5 }
    {
        self.parts.len()
    }

    /// The part with this index, from 0. It takes no memory.
    pub fn part(&self, i: usize) -> &[u8]
        requires { i < length self.now }
        ensures { slice_get self.now i ≡ Some result.now }
    {
        self.parts[i].items()
    }

    /// Its parts, one to five. It takes no memory.
    pub fn as_parts(&self) -> &Vec<PathPart>
        ensures value { result.now.items ≡ self.now }
        ensures least { 1 ≤ length self.now }
        ensures most { length self.now ≤ 5 }
    {
        &self.parts
    }

    /// Its parts, one to five. It takes no memory.
    pub fn into_parts(self) -> Vec<PathPart>
        ensures value { result.items ≡ self }
        ensures least { 1 ≤ length self }
        ensures most { length self ≤ 5 }
    {
        let Path { alloc: _, parts } = self;
        parts
    }

    /// Whether the parts of `other` begin with the parts of this one. It takes no memory.
    pub fn is_prefix(&self, other: &Path) -> bool
        ensures { result ≡ is_prefix self.now other.now }
    {
        let (own, others) = (self.parts.as_slice(), other.parts.as_slice());
        for (part, others_part) in own.iter().zip(others) {
            if part.items() != others_part.items() {
                return false;
            }
        }
        own.len() <= others.len()
    }

    /// Whether one of the two is a prefix of the other. It takes no memory.
    pub fn related(&self, other: &Path) -> bool
        ensures { result ≡ related self.now other.now }
    {
        self.is_prefix(other) || other.is_prefix(self)
    }

    /// The order of the two: by the first part that differs, and parts by the first byte that differs, in which a proper
    /// prefix comes first. It takes no memory.
    pub fn cmp(&self, other: &Path) -> Ordering
        ensures { result ≡ path_order self.now other.now }
    {
        let (own, others) = (self.parts.as_slice(), other.parts.as_slice());
        for (part, others_part) in own.iter().zip(others) {
            let order = part.items().cmp(others_part.items());
            if order.is_ne() {
                return order;
            }
        }
        own.len().cmp(&others.len())
    }
}

impl TryCopy for Path {
    fn try_copy(&self, alloc: Global) -> Result<Path, Memory> {
        Ok(Path {
            alloc,
            parts: copies(alloc, self.parts.as_slice())?,
        })
    }
}

fn copies(alloc: Global, parts: &[PathPart]) -> Result<Vec<PathPart>, Memory>
    ensures { IfOk result (λ copies. copies.items ≡ parts.now) }
{
    let mut copies = Vec::new(alloc);
    for part in parts {
        copies.push(part.try_copy(alloc)?)?;
    }
    Ok(copies)
}
