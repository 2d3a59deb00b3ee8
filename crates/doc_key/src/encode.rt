//! The spelling of a key.
ghost use Rattle.std.specs.Prelude.{◌≡◌, ◌++◌, ◌∷◌, [], length, take, OnOk, OnErr, IsTrue};
ghost use Rattle.std.specs.List.{list_all};
ghost use Rattle.doc_key.specs.Spelling.{columns, is_column, hashed_group, spelling, has_spelling};

use crate::doc_key::DocKey;
use crate::tag;
use doc_value::Primitive;
use docdb_base::Memory;

fn append_group(group: &[Primitive], out: &mut Vec<u8>) -> Result<(), Memory>
    requires { IsTrue (list_all is_column group.now) }
    ensures ok { OnOk result (out.new.items ≡ out.old.items ++ (columns group.now ++ 0x21 ∷ [])) }
    ensures memory { OnErr result (take (length out.old.items) out.new.items ≡ out.old.items) }
{
    for column in group {
        column.encode(out)?;
    }
    out.push(tag::GROUP_END)?;
    Ok(())
}

impl DocKey {
    fn append_hashed(&self, out: &mut Vec<u8>) -> Result<(), Memory>
        requires { IsTrue (list_all is_column self.now.hashed) }
        ensures ok { OnOk result (out.new.items ≡ out.old.items ++ hashed_group self.now.hashed) }
        ensures memory { OnErr result (take (length out.old.items) out.new.items ≡ out.old.items) }
    {
        if let Some(hash) = self.hash() {
            out.push(tag::HASH)?;
            out.extend_from_slice(&hash.to_be_bytes())?;
            append_group(self.hashed.items(), out)?;
        }
        Ok(())
    }

    fn append(&self, out: &mut Vec<u8>) -> Result<(), Memory>
        requires { IsTrue (has_spelling self.now) }
        ensures ok { OnOk result (out.new.items ≡ out.old.items ++ spelling self.now) }
        ensures memory { OnErr result (take (length out.old.items) out.new.items ≡ out.old.items) }
    {
        self.append_hashed(out)?;
        append_group(self.range.items(), out)
    }

    /// Appends the spelling of the key. If memory runs out, `out` is as before.
    pub fn encode(&self, out: &mut Vec<u8>) -> Result<(), Memory>
        requires { IsTrue (has_spelling self.now) }
        ensures ok { OnOk result (out.new.items ≡ out.old.items ++ spelling self.now) }
        ensures memory { OnErr result (out.new.items ≡ out.old.items) }
    {
        let before = out.len();
        let done = self.append(out);
        if done.is_err() {
            out.truncate(before);
        }
        done
    }
}
