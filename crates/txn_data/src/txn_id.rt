//! The id of a transaction.
use docdb_base::{Memory, TryCopy};
use std::alloc::Global;
use std::fmt;
use std::marker::Model;

/// The id of a transaction: the number of its session times 2^64, and its serial number in that session. Contracts see
/// the number.
#[derive(Clone, Copy, Debug, PartialEq, Eq, PartialOrd, Ord)]
pub struct TxnId {
    pub number: u128,
}

impl Model for TxnId {
    ghost use Rattle.std.specs.Prelude.{ℕ};

    ghost Value = { ℕ };

    ghost view = { λ x. x.number };

    ghost inverse = { λ n. record { number = n } };
}

// The number of the session, a dot, and the serial number.
impl fmt::Display for TxnId {
    fn fmt<W: fmt::Write>(&self, f: &mut fmt::Formatter<W>) -> fmt::Result {
        let session = self.number / 18_446_744_073_709_551_616;
        let serial = self.number % 18_446_744_073_709_551_616;
        write!(f, "{session}.{serial}")
    }
}

impl TryCopy for TxnId {
    fn try_copy(&self, _alloc: Global) -> Result<TxnId, Memory> {
        Ok(*self)
    }
}
