//! The spelling of a value.
ghost use Rattle.std.specs.Prelude.{◌≡◌, ◌++◌, ◌∷◌, [], pos, ◌-ℤ◌, length, take, OnOk, OnErr, IsTrue};
ghost use Rattle.doc_value.specs.Spelling.{spelling, escaped, escaped_byte, has_spelling, above_least};

use crate::primitive::Primitive;
use crate::tag;
use docdb_base::Memory;

/// The highest bit of 64.
const SIGN_BIT: u64 = 1 << 63;

/// How far an integer lies above the least of 64 bits: its bits with the sign bit flipped.
pub fn above_least(number: i64) -> u64
    ensures { result ≡ above_least number }
{
    number.cast_unsigned() ^ SIGN_BIT
}

/// The integer that lies so far above the least one.
pub(crate) fn from_above_least(number: u64) -> i64
    ensures { result ≡ pos number -ℤ pos 0x8000_0000_0000_0000 }
{
    (number ^ SIGN_BIT).cast_signed()
}

fn append_byte(byte: u8, out: &mut Vec<u8>) -> Result<(), Memory>
    ensures ok { OnOk result (out.new.items ≡ out.old.items ++ escaped_byte byte) }
    ensures memory { OnErr result (out.new.items ≡ out.old.items) }
{
    match byte {
        0 => out.extend_from_slice(&[0, 1]),
        _ => Ok(out.push(byte)?),
    }
}

fn append_text(text: &[u8], out: &mut Vec<u8>) -> Result<(), Memory>
    ensures ok { OnOk result (out.new.items ≡ out.old.items ++ (0x53 ∷ (escaped text.now ++ 0 ∷ 0 ∷ []))) }
    ensures memory { OnErr result (take (length out.old.items) out.new.items ≡ out.old.items) }
{
    out.push(tag::STRING)?;
    for byte in text {
        append_byte(*byte, out)?;
    }
    out.extend_from_slice(&[0, 0])
}

impl Primitive {
    fn append(&self, out: &mut Vec<u8>) -> Result<(), Memory>
        ensures ok { OnOk result (out.new.items ≡ out.old.items ++ spelling self.now) }
        ensures memory { OnErr result (take (length out.old.items) out.new.items ≡ out.old.items) }
    {
        match self {
            Primitive::False => out.push(tag::FALSE)?,
            Primitive::Int(number) => {
                out.push(tag::INT64)?;
                out.extend_from_slice(&above_least(*number).to_be_bytes())?;
            }
            Primitive::Column(number) => {
                out.push(tag::COLUMN_ID)?;
                out.extend_from_slice(&number.to_be_bytes())?;
            }
            Primitive::Text(text) => append_text(text.items(), out)?,
            Primitive::True => out.push(tag::TRUE)?,
        }
        Ok(())
    }

    /// Appends the spelling of the value. If memory runs out, `out` is as before.
    pub fn encode(&self, out: &mut Vec<u8>) -> Result<(), Memory>
        requires { IsTrue (has_spelling self.now) }
        ensures ok { OnOk result (out.new.items ≡ out.old.items ++ spelling self.now) }
        ensures memory { OnErr result (out.new.items ≡ out.old.items) }
    {
        let before = out.len();
        let done = self.append(out);
        if done.is_err() {
            out.truncate(before);
        }
        done
    }
}
