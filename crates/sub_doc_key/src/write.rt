//! The spelling of a versioned key.
ghost use Rattle.std.specs.Prelude.{◌≡◌, ◌++◌, ◌+◌, ◌*◌, length, take, OnOk, OnErr};
ghost use Rattle.std.specs.List.{concat};
ghost use Rattle.sub_doc_key.specs.Spelling.{suffix, spelling};

use crate::tag;
use doc_path::Path;
use docdb_base::Memory;
use hybrid_time::HybridTime;

/// The number whose order is the order of times: microseconds in its upper 52 bits, the counter in its lower 12.
fn bits(at: HybridTime) -> u64
    ensures { result ≡ at }
{
    at.micros() * 4096 + u64::from(at.logical())
}

fn append_path(path: &Path, out: &mut Vec<u8>) -> Result<(), Memory>
    ensures ok { OnOk result (out.new.items ≡ out.old.items ++ concat path.now) }
    ensures memory { OnErr result (take (length out.old.items) out.new.items ≡ out.old.items) }
{
    for i in 0..path.parts() {
        out.extend_from_slice(path.part(i))?;
    }
    Ok(())
}

fn append_suffix(at: HybridTime, number: u32, out: &mut Vec<u8>) -> Result<(), Memory>
    ensures ok { OnOk result (out.new.items ≡ out.old.items ++ suffix at number) }
    ensures memory { OnErr result (take (length out.old.items) out.new.items ≡ out.old.items) }
{
    out.push(tag::HYBRID_TIME)?;
    out.extend_from_slice(&(!bits(at)).to_be_bytes())?;
    out.extend_from_slice(&(!number).to_be_bytes())?;
    Ok(())
}

fn append(path: &Path, at: HybridTime, number: u32, out: &mut Vec<u8>) -> Result<(), Memory>
    ensures ok { OnOk result (out.new.items ≡ out.old.items ++ spelling (record { path = path.now; at = at; number = number })) }
    ensures memory { OnErr result (take (length out.old.items) out.new.items ≡ out.old.items) }
{
    append_path(path, out)?;
    append_suffix(at, number, out)
}

/// Appends the spelling of a versioned key: the parts of the path, the tag of the suffix, the time and the write number.
/// It is read back where the parts spell a document key and values. If memory runs out, `out` is as before.
pub fn encode(path: &Path, at: HybridTime, number: u32, out: &mut Vec<u8>) -> Result<(), Memory>
    ensures ok { OnOk result (out.new.items ≡ out.old.items ++ spelling (record { path = path.now; at = at; number = number })) }
    ensures memory { OnErr result (out.new.items ≡ out.old.items) }
{
    let before = out.len();
    let done = append(path, at, number, out);
    if done.is_err() {
        out.truncate(before);
    }
    done
}
