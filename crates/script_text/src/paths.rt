//! The paths that words spell.
ghost use Rattle.std.specs.Prelude.{◌≡◌, ◌<◌, ◌≤◌, ◌∷◌, length, IfOk, IsTrue};
ghost use Rattle.script_text.specs.declared.marks.Marks.TheVariants.{OfPath};
ghost use Rattle.script_text.specs.Outcomes.{Reads};
ghost use Rattle.script_text.specs.Terms.{columns_to, document_behind, document_of, group_to, if_document, is_document, path_for, place_for, place_of, subkeys_in, tablet_for};
ghost use Rattle.script_text.specs.Words.{pieces_behind, pieces_of};

use crate::document::Document;
use crate::marks::Marks;
use crate::no_term::NoTerm;
use crate::part_kind::PartKind;
use crate::pieces::cut;
use crate::terms::part_of;
use doc_key::DocKey;
use doc_path::Path;
use doc_value::Primitive;
use docdb_base::{Memory, Seq};
use partition_map::tablet_of;
use std::alloc::{AllocError, Global};
use txn_data::Place;

/// The values of a group that is ended by the second mark, and what is behind it.
fn group_to(
    alloc: Global,
    kind: PartKind,
    between: u8,
    ends: u8,
    bytes: &[u8],
) -> Result<(Vec<Primitive>, &[u8]), NoTerm>
    requires { 0 < between }
    ensures { Reads (λ x. record { values = x.0.items; rest = pieces_behind OfPath ends x.1.now }) result
        (group_to kind between ends (pieces_of OfPath bytes.now)) }
{
    let mut values = Vec::new(alloc);
    let mut rest = bytes;
    'values: loop {
        let (text, mark, after) = cut(Marks::OfPath, rest);
        values.push(part_of(alloc, kind, text)?)?;
        if mark == ends {
            return Ok((values, after));
        }
        if mark != between {
            return Err(NoTerm::Other);
        }
        rest = after;
    }
}

/// The columns up to a mark, and what is behind it.
fn columns_to(alloc: Global, ends: u8, bytes: &[u8]) -> Result<(Vec<Primitive>, &[u8]), NoTerm>
    ensures { Reads (λ x. record { values = x.0.items; rest = pieces_behind OfPath ends x.1.now }) result
        (columns_to ends (pieces_of OfPath bytes.now)) }
{
    let (text, mark, rest) = cut(Marks::OfPath, bytes);
    if text.is_empty() && mark == ends {
        return Ok((Vec::new(alloc), rest));
    }
    group_to(alloc, PartKind::OfKey, b',', ends, bytes)
}

/// The subkeys behind a key.
fn subkeys_in(alloc: Global, bytes: &[u8]) -> Result<Vec<Primitive>, NoTerm>
    ensures { Reads (λ v. v.items) result (subkeys_in (pieces_of OfPath bytes.now)) }
{
    let (text, mark, rest) = cut(Marks::OfPath, bytes);
    if !text.is_empty() {
        return Err(NoTerm::Other);
    }
    match mark {
        0 => Ok(Vec::new(alloc)),
        b'/' => Ok(group_to(alloc, PartKind::BehindKey, b'/', 0, rest)?.0),
        _ => Err(NoTerm::Other),
    }
}

/// The document, if it has a spelling.
fn if_document(document: Document) -> Result<Document, NoTerm>
    ensures value { Reads (λ d. d) result (if_document document) }
    ensures spelled { IfOk result (λ d. IsTrue (is_document d)) }
{
    if document.is_document() {
        Ok(document)
    } else {
        Err(NoTerm::Other)
    }
}

/// The document whose text begins behind its first bracket.
fn document_behind(alloc: Global, bytes: &[u8]) -> Result<Document, NoTerm>
    ensures value { Reads (λ d. d) result (document_behind (pieces_of OfPath bytes.now)) }
    ensures spelled { IfOk result (λ d. IsTrue (is_document d)) }
{
    let (hashed, rest) = columns_to(alloc, b';', bytes)?;
    let (range, rest) = columns_to(alloc, b']', rest)?;
    let subkeys = subkeys_in(alloc, rest)?;
    let key = DocKey {
        hashed: Seq::of(hashed),
        range: Seq::of(range),
    };
    if_document(Document {
        key,
        subkeys: Seq::of(subkeys),
    })
}

fn document_of(alloc: Global, text: &[u8]) -> Result<Document, NoTerm>
    ensures value { Reads (λ d. d) result (document_of text.now) }
    ensures spelled { IfOk result (λ d. IsTrue (is_document d)) }
{
    let (front, mark, rest) = cut(Marks::OfPath, text);
    if !front.is_empty() || mark != b'[' {
        return Err(NoTerm::Other);
    }
    document_behind(alloc, rest)
}

/// The tablet that owns the hash, or the first where there is none.
fn tablet_for(tablets: u32, hash: Option<u16>) -> u32
    requires some { 1 ≤ tablets }
    requires few { tablets ≤ 64 }
    ensures value { result ≡ tablet_for tablets hash }
    ensures is_tablet { result < tablets }
{
    match hash {
        Some(hash) => tablet_of(hash, tablets),
        None => 0,
    }
}

/// The path of a document: its key, and behind it its subkeys.
fn path_for(alloc: Global, document: &Document) -> Result<Path, Memory>
    requires { IsTrue (is_document document.now) }
    ensures { IfOk result (λ p. p ≡ path_for document.now) }
{
    let mut bytes = Vec::new(alloc);
    document.key.encode(&mut bytes)?;
    let mut path = Path::of(alloc, bytes.as_slice())?;
    'subkeys: for subkey in document.subkeys.items() {
        bytes.clear();
        subkey.encode(&mut bytes)?;
        path.push(bytes.as_slice()).map_err(|_| AllocError)?;
    }
    Ok(path)
}

/// The place of a document among so many tablets: on the tablet that owns the hash of its key, or on the first if no
/// column is hashed.
pub fn place_for(alloc: Global, tablets: u32, document: &Document) -> Result<Place, Memory>
    requires some { 1 ≤ tablets }
    requires few { tablets ≤ 64 }
    requires spelled { IsTrue (is_document document.now) }
    ensures { IfOk result (λ p. p ≡ place_for tablets document.now) }
{
    let tablet = tablet_for(tablets, document.key.hash());
    let path = path_for(alloc, document)?;
    Ok(Place { tablet, path })
}

/// The place of a path, among so many tablets.
pub(crate) fn place_of(alloc: Global, tablets: u32, text: &[u8]) -> Result<Place, NoTerm>
    requires some { 1 ≤ tablets }
    requires few { tablets ≤ 64 }
    ensures { Reads (λ p. p) result (place_of tablets text.now) }
{
    let document = document_of(alloc, text)?;
    let place = place_for(alloc, tablets, &document)?;
    Ok(place)
}
