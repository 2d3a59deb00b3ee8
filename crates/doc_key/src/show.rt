//! The text of a key.
ghost use Rattle.std.specs.Prelude.{◌≡◌, ◌++◌, length, take, OnOk, OnErr};
ghost use Rattle.std.specs.Str.{IsAscii};
ghost use Rattle.doc_key.specs.Showing.{shown_columns, shown};

use crate::doc_key::DocKey;
use doc_value::Primitive;
use docdb_base::Memory;

fn show_columns(columns: &[Primitive], out: &mut Vec<u8>) -> Result<(), Memory>
    ensures ok { OnOk result (out.new.items ≡ out.old.items ++ shown_columns columns.now) }
    ensures ascii { OnOk result (IsAscii (shown_columns columns.now)) }
    ensures memory { OnErr result (take (length out.old.items) out.new.items ≡ out.old.items) }
{
    if let Some((first, others)) = columns.split_first() {
        first.text(out)?;
        for column in others {
            out.push(b',')?;
            column.text(out)?;
        }
    }
    Ok(())
}

impl DocKey {
    fn show(&self, out: &mut Vec<u8>) -> Result<(), Memory>
        ensures ok { OnOk result (out.new.items ≡ out.old.items ++ shown self.now) }
        ensures ascii { OnOk result (IsAscii (shown self.now)) }
        ensures memory { OnErr result (take (length out.old.items) out.new.items ≡ out.old.items) }
    {
        out.push(b'[')?;
        show_columns(self.hashed.items(), out)?;
        out.push(b';')?;
        show_columns(self.range.items(), out)?;
        out.push(b']')?;
        Ok(())
    }

    /// Appends the text of the key, as a script and a report show it. If memory runs out, `out` is as before.
    pub fn text(&self, out: &mut Vec<u8>) -> Result<(), Memory>
        ensures ok { OnOk result (out.new.items ≡ out.old.items ++ shown self.now) }
        ensures ascii { OnOk result (IsAscii (shown self.now)) }
        ensures memory { OnErr result (out.new.items ≡ out.old.items) }
    {
        let before = out.len();
        let done = self.show(out);
        if done.is_err() {
            out.truncate(before);
        }
        done
    }
}
