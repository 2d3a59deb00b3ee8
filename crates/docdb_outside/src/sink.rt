//! Where bytes go.
ghost use Rattle.std.specs.Prelude.{◌≡◌, ◌≤◌, ◌<◌, ◌++◌, ℕ, List, Option, Some, length, take};
ghost use Rattle.std.specs.Prelude.{IfOk, OnErr, IfSome, is_some};
ghost use Rattle.docdb_outside.specs.Count.{Rose};

use crate::failed::Failed;

/// A place to which bytes are written, in order.
pub trait Sink {
    /// The bytes that it has taken, where the sink tells them.
    ghost taken: { Self → Option (List ℕ) };

    /// How often a write failed. The count never falls, and stands still at 2^64 - 1.
    ghost faults: { Self → ℕ };

    /// How often a write took nothing of a piece that was not empty. The count never falls, and stands still at 2^64 - 1.
    ghost stalls: { Self → ℕ };

    /// Takes bytes from the front of `buf`, and answers how many. A write that fails takes none, and may be tried again.
    fn write(&mut self, buf: &[u8]) -> Result<usize, Failed>
        ensures bound { IfOk result (λ n. n ≤ length buf.now) }

        // It fails, or takes nothing of a piece, only where the outside did.
        ensures faults { faults self.old ≤ faults self.new }
        ensures failed { OnErr result (Rose (faults self.old) (faults self.new)) }
        ensures stalls { stalls self.old ≤ stalls self.new }
        ensures stalled { IfOk result (λ n. n ≡ 0 → 0 < length buf.now → Rose (stalls self.old) (stalls self.new)) }

        // The bytes, where they are told.
        ensures told { is_some (taken self.new) ≡ is_some (taken self.old) }
        ensures moved { IfOk result (λ n. IfSome (taken self.old)
            (λ bytes. taken self.new ≡ Some (bytes ++ take n buf.now))) }
        ensures kept { OnErr result (taken self.new ≡ taken self.old) };
}
