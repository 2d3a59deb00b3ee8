//! Where bytes come from.
ghost use Rattle.std.specs.Prelude.{◌≡◌, ◌≤◌, ℕ, List, Option, length, IfOk, OnErr, IfSome, is_some};
ghost use Rattle.docdb_outside.specs.Count.{Rose};
ghost use Rattle.docdb_outside.specs.Source.{MovesFront};

use crate::failed::Failed;

/// A place from which bytes are read, in order and each once.
pub trait Source {
    /// The bytes that are left, where the source tells them.
    ghost left: { Self → Option (List ℕ) };

    /// How often a read failed. The count never falls, and stands still at 2^64 - 1.
    ghost faults: { Self → ℕ };

    /// Moves bytes to the front of `buf`, and answers how many: 0 at the end of the bytes, and where `buf` is empty.
    /// A read that fails moves none, and may be tried again.
    fn read(&mut self, buf: &mut [u8]) -> Result<usize, Failed>
        ensures bound { IfOk result (λ n. n ≤ length buf.old) }

        // It fails only where the outside did.
        ensures faults { faults self.old ≤ faults self.new }
        ensures failed { OnErr result (Rose (faults self.old) (faults self.new)) }

        // The bytes, where they are told.
        ensures told { is_some (left self.new) ≡ is_some (left self.old) }
        ensures moved { IfOk result (λ n. IfSome (left self.old)
            (λ bytes. MovesFront bytes n buf.new (left self.new))) }
        ensures kept { OnErr result (left self.new ≡ left self.old) };
}
