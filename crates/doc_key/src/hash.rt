//! The hash of a key.
ghost use Rattle.std.specs.Prelude.{◌≡◌, ◌<◌};
ghost use Rattle.std.specs.List.{fold};
ghost use Rattle.doc_value.specs.Spelling.{spelling as value_spelling, escaped, escaped_byte};
ghost use Rattle.doc_key.specs.Hash.{fnv_step, word, folded, hash_of};
ghost use Rattle.doc_key.specs.Spelling.{columns, hash_of_columns};

use crate::doc_key::DocKey;
use doc_value::{Primitive, above_least, tag};

const FNV_START: u64 = 0xCBF2_9CE4_8422_2325;

const FNV_PRIME: u64 = 0x100_0000_01B3;

fn fnv_step(hash: u64, byte: u8) -> u64
    ensures { result ≡ fnv_step hash byte }
{
    (hash ^ u64::from(byte)).wrapping_mul(FNV_PRIME)
}

fn fnv_bytes(hash: u64, bytes: &[u8]) -> u64
    ensures { result ≡ fold fnv_step hash bytes.now }
{
    bytes.iter().fold(hash, |hash, byte| fnv_step(hash, *byte))
}

fn fnv_escaped(hash: u64, byte: u8) -> u64
    ensures { result ≡ fold fnv_step hash (escaped_byte byte) }
{
    match byte {
        0 => fnv_bytes(hash, &[0, 1]),
        _ => fnv_step(hash, byte),
    }
}

fn fnv_text(hash: u64, text: &[u8]) -> u64
    ensures { result ≡ fold fnv_step hash (escaped text.now) }
{
    let mut hash = hash;
    for byte in text {
        hash = fnv_escaped(hash, *byte);
    }
    hash
}

fn fnv_value(hash: u64, value: &Primitive) -> u64
    ensures { result ≡ fold fnv_step hash (value_spelling value.now) }
{
    match value {
        Primitive::False => fnv_step(hash, tag::FALSE),
        Primitive::Int(number) => fnv_bytes(
            fnv_step(hash, tag::INT64),
            &above_least(*number).to_be_bytes(),
        ),
        Primitive::Column(number) => {
            fnv_bytes(fnv_step(hash, tag::COLUMN_ID), &number.to_be_bytes())
        }
        Primitive::Text(text) => {
            let text = fnv_text(fnv_step(hash, tag::STRING), text.items());
            fnv_bytes(text, &[0, 0])
        }
        Primitive::True => fnv_step(hash, tag::TRUE),
    }
}

/// The 16 bits of a number from this place upward.
fn word(place: u32, number: u64) -> u16
    requires { place < 64 }
    ensures { result ≡ word place number }
{
    ((number >> place) % 0x1_0000) as u16
}

/// The four words of 16 bits of a number, joined by exclusive or.
fn folded(number: u64) -> u16
    ensures { result ≡ folded number }
{
    word(48, number) ^ word(32, number) ^ word(16, number) ^ word(0, number)
}

/// The hash of bytes. It takes no memory.
pub fn hash_of(bytes: &[u8]) -> u16
    ensures { result ≡ hash_of bytes.now }
{
    folded(fnv_bytes(FNV_START, bytes))
}

/// The hash of what columns are spelled as. It takes no memory.
pub(crate) fn hash_of_columns(group: &[Primitive]) -> u16
    ensures { result ≡ hash_of (columns group.now) }
{
    let mut hash = FNV_START;
    for column in group {
        hash = fnv_value(hash, column);
    }
    folded(hash)
}

impl DocKey {
    /// The hash of the hashed columns, where there are any. It takes no memory.
    pub fn hash(&self) -> Option<u16>
        ensures { result ≡ hash_of_columns self.now.hashed }
    {
        match self.hashed.items() {
            [] => None,
            hashed => Some(hash_of_columns(hashed)),
        }
    }
}
