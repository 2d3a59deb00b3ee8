//! The text of a path.
ghost use Rattle.std.specs.Prelude.{◌≡◌, ◌++◌, length, take, OnOk, OnErr};
ghost use Rattle.std.specs.Str.{IsAscii};
ghost use Rattle.doc_value.specs.Reading.{value_of};
ghost use Rattle.doc_key.specs.Reading.{key_of};
ghost use Rattle.sub_doc_key.specs.Showing.{shown_key, shown_value, shown_path};

use doc_path::Path;
use doc_value::KeyRefusal;
use docdb_base::Memory;
use std::alloc::AllocError;

fn show_key(part: &[u8], out: &mut Vec<u8>) -> Result<(), Memory>
    ensures ok { OnOk result (out.new.items ≡ out.old.items ++ shown_key (key_of part.now)) }
    ensures ascii { OnOk result (IsAscii (shown_key (key_of part.now))) }
    ensures memory { OnErr result (out.new.items ≡ out.old.items) }
{
    match doc_key::decode(*out.allocator(), part) {
        Ok(key) => key.text(out),
        Err(KeyRefusal::Memory) => Err(AllocError),
        Err(_) => Ok(()),
    }
}

fn show_value(part: &[u8], out: &mut Vec<u8>) -> Result<(), Memory>
    ensures ok { OnOk result (out.new.items ≡ out.old.items ++ shown_value (value_of part.now)) }
    ensures ascii { OnOk result (IsAscii (shown_value (value_of part.now))) }
    ensures memory { OnErr result (out.new.items ≡ out.old.items) }
{
    match doc_value::decode(*out.allocator(), part) {
        Ok(value) => value.text(out),
        Err(KeyRefusal::Memory) => Err(AllocError),
        Err(_) => Ok(()),
    }
}

fn show(path: &Path, out: &mut Vec<u8>) -> Result<(), Memory>
    ensures ok { OnOk result (out.new.items ≡ out.old.items ++ shown_path path.now) }
    ensures ascii { OnOk result (IsAscii (shown_path path.now)) }
    ensures memory { OnErr result (take (length out.old.items) out.new.items ≡ out.old.items) }
{
    let parts = path.parts();
    show_key(path.part(0), out)?;
    for i in 1..parts {
        out.push(b'/')?;
        show_value(path.part(i), out)?;
    }
    Ok(())
}

/// Appends the text of a path, as a script and a report show it. A part that spells no document key or no value,
/// where one has to stand, has no text. If memory runs out, `out` is as before.
pub fn path_text(path: &Path, out: &mut Vec<u8>) -> Result<(), Memory>
    ensures ok { OnOk result (out.new.items ≡ out.old.items ++ shown_path path.now) }
    ensures ascii { OnOk result (IsAscii (shown_path path.now)) }
    ensures memory { OnErr result (out.new.items ≡ out.old.items) }
{
    let before = out.len();
    let done = show(path, out);
    if done.is_err() {
        out.truncate(before);
    }
    done
}
