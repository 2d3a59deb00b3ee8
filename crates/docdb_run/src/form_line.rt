//! Lines of a script.
ghost use Rattle.std.specs.Prelude.{◌≡◌, ◌<◌, ◌^◌, IfOk};
ghost use Rattle.docdb_run.specs.Form.{place_of, value_of, put_line, read_line, clock_line, line_of};

use crate::form_text::{after_text, is_word, letter_count, number_of};
use crate::line::Line;
use doc_path::Path;
use docdb_base::{Memory, Seq};
use std::alloc::Global;
use txn_types::{Bytes, Command, Place};

/// The greatest value that is written.
const MOST_VALUE: u64 = 9_223_372_036_854_775_807;

/// The greatest reading of a clock, in microseconds.
const MOST_MICROS: u64 = 4_000_000_000_000_000;

/// The line that these bytes spell, where they are of the form: it is empty, or one of the three commands. `clock` is
/// the last reading that was set, in microseconds.
pub fn line_of(alloc: Global, clock: u64, line: &[u8]) -> Result<Option<Line>, Memory>
    ensures { IfOk result (λ told. told ≡ line_of clock line.now) }
{
    if line.is_empty() {
        return Ok(Some(Line::Blank));
    }
    if let Some(bytes) = after_text(b"1: single put [;\"", line) {
        return put_line(alloc, bytes);
    }
    if let Some(bytes) = after_text(b"1: read [;\"", line) {
        return read_line(alloc, bytes);
    }
    let Some(digits) = after_text(b"1: clock 0 ", line) else {
        return Ok(None);
    };
    Ok(clock_line(clock, digits))
}

/// A single write, after the quote that opens its letters.
fn put_line(alloc: Global, bytes: &[u8]) -> Result<Option<Line>, Memory>
    ensures { IfOk result (λ told. told ≡ put_line bytes.now) }
{
    let count = letter_count(bytes);
    if !is_word(count) {
        return Ok(None);
    }
    let Some(digits) = after_text(b"\"] ", &bytes[count..]) else {
        return Ok(None);
    };
    let Some(number) = number_of(MOST_VALUE, digits) else {
        return Ok(None);
    };
    let place = place_of(alloc, &bytes[..count])?;
    let value = value_of(alloc, number)?;
    Ok(Some(Line::Told(Command::SinglePut {
        place,
        value,
        priority: 0,
    })))
}

/// A read, after the quote that opens its letters.
fn read_line(alloc: Global, bytes: &[u8]) -> Result<Option<Line>, Memory>
    ensures { IfOk result (λ told. told ≡ read_line bytes.now) }
{
    let count = letter_count(bytes);
    if !is_word(count) || &bytes[count..] != b"\"]".as_slice() {
        return Ok(None);
    }
    let mut places = Seq::new(alloc);
    places.push(place_of(alloc, &bytes[..count])?)?;
    Ok(Some(Line::Told(Command::Read {
        strict: false,
        places,
    })))
}

/// A reading that is set, after the last space.
fn clock_line(clock: u64, digits: &[u8]) -> Option<Line>
    ensures { result ≡ clock_line clock digits.now }
{
    let micros = number_of(MOST_MICROS, digits)?;
    if micros < clock {
        return None;
    }
    Some(Line::Told(Command::Clock { node: 0, micros }))
}

/// The place of a document whose key is these letters.
fn place_of(alloc: Global, letters: &[u8]) -> Result<Place, Memory>
    ensures { IfOk result (λ place. place ≡ place_of letters.now) }
{
    let mut key = Vec::new(alloc);
    key.push(b'S')?;
    key.extend_from_slice(letters)?;
    key.extend_from_slice(&[0, 0, b'!'])?;
    Ok(Place {
        tablet: 0,
        path: Path::of(alloc, key.as_slice())?,
    })
}

/// The value of a whole number.
fn value_of(alloc: Global, number: u64) -> Result<Bytes, Memory>
    requires { number < 2 ^ 63 }
    ensures { IfOk result (λ value. value ≡ value_of number) }
{
    let mut value = Vec::new(alloc);
    value.push(b'I')?;
    value.extend_from_slice(&(number + (1 << 63)).to_be_bytes())?;
    Ok(Seq::of(value))
}
