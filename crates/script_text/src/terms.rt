//! The values that words spell, and the parts of paths.
ghost use Rattle.std.specs.Prelude.{◌≡◌, ◌<◌, ◌≤◌, length, IfOk};
ghost use Rattle.script_text.specs.Outcomes.{Reads};
ghost use Rattle.script_text.specs.Terms.{column_of, if_spelled, part_of, subkey_of, value_of};

use crate::no_term::NoTerm;
use crate::numbers::{integer_of, small_in};
use crate::part_kind::PartKind;
use crate::strings::string_in;
use doc_value::Primitive;
use docdb_base::Seq;
use std::alloc::Global;
use txn_data::Bytes;

/// The value, if it has a spelling.
fn if_spelled(value: Primitive) -> Result<Primitive, NoTerm>
    ensures { Reads (λ p. p) result (if_spelled value) }
{
    if value.has_spelling() {
        Ok(value)
    } else {
        Err(NoTerm::Other)
    }
}

/// The value of a string in quotes, of `true`, of `false` or of an integer.
fn column_of(alloc: Global, text: &[u8]) -> Result<Primitive, NoTerm>
    ensures { Reads (λ p. p) result (column_of text.now) }
{
    match text {
        [b'"', string @ ..] => if_spelled(Primitive::Text(Seq::of(string_in(alloc, string)?))),
        b"true" => Ok(Primitive::True),
        b"false" => Ok(Primitive::False),
        _ => match integer_of(text) {
            Some(number) => Ok(Primitive::Int(number)),
            None => Err(NoTerm::Other),
        },
    }
}

/// The value of a column, or of the number of one behind a #.
fn subkey_of(alloc: Global, text: &[u8]) -> Result<Primitive, NoTerm>
    ensures { Reads (λ p. p) result (subkey_of text.now) }
{
    match text {
        [b'#', digits @ ..] => match small_in(0, u32::MAX, digits) {
            Some(number) => Ok(Primitive::Column(number)),
            None => Err(NoTerm::Other),
        },
        _ => column_of(alloc, text),
    }
}

/// A part of a path, by its kind.
pub(crate) fn part_of(alloc: Global, kind: PartKind, text: &[u8]) -> Result<Primitive, NoTerm>
    ensures { Reads (λ p. p) result (part_of kind text.now) }
{
    match kind {
        PartKind::OfKey => column_of(alloc, text),
        PartKind::BehindKey => subkey_of(alloc, text),
    }
}

/// The bytes of a value.
pub(crate) fn value_of(alloc: Global, text: &[u8]) -> Result<Bytes, NoTerm>
    ensures { Reads (λ b. b) result (value_of text.now) }
{
    let value = column_of(alloc, text)?;
    let mut bytes = Vec::new(alloc);
    value.encode(&mut bytes)?;
    Ok(Seq::of(bytes))
}
