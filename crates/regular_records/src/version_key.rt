//! The key of a version among those of its path.
ghost use Rattle.std.specs.Prelude.{◌≡◌, ◌<◌};

use hybrid_time::HybridTime;
use std::cmp::Ordering;

/// The commit time and the write number of a version. They are ordered with the newest first.
#[derive(Clone, Copy, Debug, PartialEq, Eq)]
pub struct VersionKey {
    pub at: HybridTime,
    pub number: u32,
}

impl VersionKey {
    /// The commit time.
    pub fn at(&self) -> HybridTime
        ensures value { result ≡ self.now.at }
        ensures small { self.now.number < 4294967296 }
    {
        // The size of a number is known once it is read.
        let _number = self.number;
        self.at
    }

    /// The write number.
    pub fn number(&self) -> u32
        ensures { result ≡ self.now.number }
    {
        self.number
    }
}

impl Ord for VersionKey {
    ghost use Rattle.std.proofs.Common.{rules};
    ghost use Rattle.std.specs.Cmp.Rules.{comparing};
    ghost use Rattle.std.specs.Ordering.{nat_cmp, on, flip_args, then_cmp};

    ghost cmp = { flip_args (then_cmp (on (λ m. m.at) nat_cmp) (on (λ m. m.number) nat_cmp)) };

    ghost total = { Prim.search (comparing, rules) };

    ghost matches_partial_cmp = { Prim.search (comparing, rules) };

    ghost matches_eq = { Prim.search (comparing, rules) };

    fn cmp(&self, other: &VersionKey) -> Ordering {
        other.at.cmp(&self.at).then(other.number.cmp(&self.number))
    }
}

impl PartialOrd for VersionKey {
    ghost use Rattle.std.proofs.Common.{rules};
    ghost use Rattle.std.specs.Cmp.{partial_order_from_own_ties};
    ghost use Rattle.std.specs.Cmp.Rules.{comparing};
    ghost use Rattle.std.specs.Ordering.{nat_cmp, on, flip_args, then_cmp, as_partial_cmp};

    ghost partial_cmp = { as_partial_cmp (flip_args (then_cmp (on (λ m. m.at) nat_cmp) (on (λ m. m.number) nat_cmp))) };

    ghost laws = { partial_order_from_own_ties (Prim.search (comparing, rules)) (Prim.search (comparing, rules)) };

    fn partial_cmp(&self, other: &VersionKey) -> Option<Ordering> {
        Some(self.cmp(other))
    }
}
