//! The rows of reads as text.
ghost use Rattle.std.specs.Prelude.{◌≡◌, ◌++◌, OnOk};
ghost use Rattle.std.specs.Str.{IsAscii};
ghost use Rattle.doc_value.specs.Reading.{value_of};
ghost use Rattle.sub_doc_key.specs.Showing.{shown_value};
ghost use Rattle.report_text.specs.Answer.{value_text, row_text};

use doc_value::KeyRefusal;
use docdb_base::Memory;
use std::alloc::{AllocError, Global};
use sub_doc_key::path_text;
use txn_types::{Bytes, Row};

/// Puts a row at the end.
pub(crate) fn put_row(alloc: Global, text: &mut Vec<u8>, row: &Row) -> Result<(), Memory>
    ensures text { OnOk result (text.new.items ≡ text.old.items ++ row_text row.now) }
    ensures ascii { OnOk result (IsAscii (row_text row.now)) }
{
    text.push(b' ')?;
    path_text(&row.path, text)?;
    text.push(b'=')?;
    put_value(alloc, text, &row.value)
}

fn put_value(alloc: Global, text: &mut Vec<u8>, value: &Option<Bytes>) -> Result<(), Memory>
    ensures text { OnOk result (text.new.items ≡ text.old.items ++ value_text value.now) }
    ensures ascii { OnOk result (IsAscii (value_text value.now)) }
{
    match value {
        Some(bytes) => put_bytes(alloc, text, bytes.items()),
        None => text.extend_from_slice(b"-"),
    }
}

/// Puts the value that the bytes spell at the end. Bytes that spell none have no text.
fn put_bytes(alloc: Global, text: &mut Vec<u8>, bytes: &[u8]) -> Result<(), Memory>
    ensures text { OnOk result (text.new.items ≡ text.old.items ++ shown_value (value_of bytes.now)) }
    ensures ascii { OnOk result (IsAscii (shown_value (value_of bytes.now))) }
{
    match doc_value::decode(alloc, bytes) {
        Ok(value) => value.text(text),
        Err(KeyRefusal::Memory) => Err(AllocError),
        Err(_) => Ok(()),
    }
}
