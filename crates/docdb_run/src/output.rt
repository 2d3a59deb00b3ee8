//! Bytes that go out.
ghost use Rattle.std.specs.Prelude.{◌≡◌, ◌≤◌, ◌++◌, ℕ, ◌⊎◌, take, Some, OnOk, OnErr, IfSome, is_some};
ghost use Rattle.docdb_outside.specs.Count.{Rose};

use docdb_outside::Sink;

/// A sink failed, or took nothing of a piece.
#[derive(Clone, Copy, Debug, PartialEq, Eq)]
pub struct Broken;

/// Writes all of these bytes. After an error a front part of them is written.
pub fn write_all<K: Sink>(out: &mut K, bytes: &[u8]) -> Result<(), Broken>
    ensures written { OnOk result (IfSome (K.taken out.old) (λ before. K.taken out.new ≡ Some (before ++ bytes.now))) }
    ensures part { OnErr result (IfSome (K.taken out.old)
        (λ before. (n : ℕ) × (K.taken out.new ≡ Some (before ++ take n bytes.now)))) }
    ensures broken { OnErr result (Rose (K.faults out.old) (K.faults out.new) ⊎ Rose (K.stalls out.old) (K.stalls out.new)) }
    ensures told { is_some (K.taken out.new) ≡ is_some (K.taken out.old) }
    ensures faults { K.faults out.old ≤ K.faults out.new }
    ensures stalls { K.stalls out.old ≤ K.stalls out.new }
{
    let mut done = 0;
    'pieces: while done < bytes.len() {
        let Ok(count) = out.write(&bytes[done..]) else {
            return Err(Broken);
        };
        if count == 0 {
            return Err(Broken);
        }
        done += count;
    }
    Ok(())
}
