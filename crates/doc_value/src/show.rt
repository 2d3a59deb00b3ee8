//! The text of a value.
ghost use Rattle.std.specs.Prelude.{◌≡◌, ◌<◌, ◌++◌, ◌∷◌, [], length, take, OnOk, OnErr};
ghost use Rattle.std.specs.List.{flat_map};
ghost use Rattle.std.specs.Str.{IsAscii};
ghost use Rattle.doc_value.specs.Showing.{shown, shown_byte, hex_digit};

use crate::primitive::Primitive;
use docdb_base::Memory;
use itoa::Buffer;

/// The lower-case hexadecimal digit of a number.
fn hex_digit(number: u8) -> u8
    requires { number < 16 }
    ensures { result ≡ hex_digit number }
{
    if number < 10 {
        b'0' + number
    } else {
        b'a' + (number - 10)
    }
}

fn show_byte(byte: u8, out: &mut Vec<u8>) -> Result<(), Memory>
    ensures ok { OnOk result (out.new.items ≡ out.old.items ++ shown_byte byte) }
    ensures ascii { OnOk result (IsAscii (shown_byte byte)) }
    ensures memory { OnErr result (out.new.items ≡ out.old.items) }
{
    match byte {
        b'"' | b'\\' => out.extend_from_slice(&[b'\\', byte]),
        b' '..=b'~' => Ok(out.push(byte)?),
        _ => out.extend_from_slice(&[b'\\', b'x', hex_digit(byte / 16), hex_digit(byte % 16)]),
    }
}

fn show_text(text: &[u8], out: &mut Vec<u8>) -> Result<(), Memory>
    ensures ok { OnOk result (out.new.items ≡ out.old.items ++ (34 ∷ (flat_map shown_byte text.now ++ 34 ∷ []))) }
    ensures ascii { OnOk result (IsAscii (34 ∷ (flat_map shown_byte text.now ++ 34 ∷ []))) }
    ensures memory { OnErr result (take (length out.old.items) out.new.items ≡ out.old.items) }
{
    out.push(b'"')?;
    for byte in text {
        show_byte(*byte, out)?;
    }
    out.push(b'"')?;
    Ok(())
}

impl Primitive {
    fn show(&self, out: &mut Vec<u8>) -> Result<(), Memory>
        ensures ok { OnOk result (out.new.items ≡ out.old.items ++ shown self.now) }
        ensures ascii { OnOk result (IsAscii (shown self.now)) }
        ensures memory { OnErr result (take (length out.old.items) out.new.items ≡ out.old.items) }
    {
        match self {
            Primitive::False => out.extend_from_slice(b"false"),
            Primitive::Int(number) => {
                let mut buffer = Buffer::new();
                out.extend_from_slice(buffer.format(*number).as_bytes())
            }
            Primitive::Column(number) => {
                out.push(b'#')?;
                let mut buffer = Buffer::new();
                out.extend_from_slice(buffer.format(*number).as_bytes())
            }
            Primitive::Text(text) => show_text(text.items(), out),
            Primitive::True => out.extend_from_slice(b"true"),
        }
    }

    /// Appends the text of the value, as a script and a report show it. If memory runs out, `out` is as before.
    pub fn text(&self, out: &mut Vec<u8>) -> Result<(), Memory>
        ensures ok { OnOk result (out.new.items ≡ out.old.items ++ shown self.now) }
        ensures ascii { OnOk result (IsAscii (shown self.now)) }
        ensures memory { OnErr result (out.new.items ≡ out.old.items) }
    {
        let before = out.len();
        let done = self.show(out);
        if done.is_err() {
            out.truncate(before);
        }
        done
    }
}
