//! Where a log is kept.
ghost use Rattle.std.specs.Prelude.{◌≡◌, ◌≤◌, ◌⊎◌, ◌++◌, ℕ, List, length, OnOk, OnErr, IsErrOf};
ghost use Rattle.docdb_outside.specs.Count.{Rose};

use crate::failed::Failed;
use crate::load_fault::LoadFault;
use docdb_base::Memory;

/// A place that keeps a log: it holds bytes, and takes more at their end.
pub trait LogStore {
    /// The bytes held.
    ghost held: { Self → List ℕ };

    /// How many more bytes it has room for.
    ghost room: { Self → ℕ };

    /// How often an append or a load failed. The count never falls, and stands still at 2^64 - 1.
    ghost faults: { Self → ℕ };

    /// How often the log was loaded. The count never falls, and stands still at 2^64 - 1.
    ghost loads: { Self → ℕ };

    /// Makes room for this many more bytes. If memory runs out, all is as before.
    fn make_room(&mut self, bytes: usize) -> Result<(), Memory>
        ensures ok { OnOk result (bytes ≤ room self.new) }
        ensures memory { OnErr result (room self.new ≡ room self.old) }
        ensures held { held self.new ≡ held self.old }
        ensures faults { faults self.new ≡ faults self.old }
        ensures loads { loads self.new ≡ loads self.old };

    /// Puts bytes at the end. It takes no memory. After a fault all of them are held, or none. Nothing is said of the
    /// room that is left.
    fn append(&mut self, bytes: &[u8]) -> Result<(), Failed>
        requires { length bytes.now ≤ room self.old }
        ensures ok { OnOk result (held self.new ≡ held self.old ++ bytes.now) }
        ensures all_or_none { OnErr result
            ((held self.new ≡ held self.old) ⊎ (held self.new ≡ held self.old ++ bytes.now)) }
        ensures loads { loads self.new ≡ loads self.old }

        // It fails only where the outside did.
        ensures faults { faults self.old ≤ faults self.new }
        ensures failed { OnErr result (Rose (faults self.old) (faults self.new)) };

    /// Puts the bytes held at the end of `out`. After an error nothing is said of `out`.
    fn load(&mut self, out: &mut Vec<u8>) -> Result<(), LoadFault>
        ensures ok { OnOk result (out.new.items ≡ out.old.items ++ held self.old) }
        ensures held { held self.new ≡ held self.old }

        // It fails only where the outside did.
        ensures faults { faults self.old ≤ faults self.new }
        ensures failed { IsErrOf result LoadFault.Failed → Rose (faults self.old) (faults self.new) }

        ensures loads { loads self.old ≤ loads self.new }
        ensures loaded { OnOk result (Rose (loads self.old) (loads self.new)) }
        ensures refused { OnErr result (loads self.new ≡ loads self.old) };
}
