//! A part of a path.
ghost use Rattle.std.specs.Prelude.{◌≡◌};

use docdb_base::{Memory, TryCopy};
use std::alloc::Global;
use std::cmp::Ordering;
use std::marker::Model;

/// A part of a path: an encoded document key or subkey. Contracts see its bytes. Parts are ordered by the first byte that
/// differs, in which a part that ends first comes first.
#[derive(Debug, Drop)]
pub struct PathPart {
    bytes: Vec<u8>,
}

impl Model for PathPart {
    ghost use Rattle.std.specs.Prelude.{ℕ, List};

    ghost Value = { List ℕ };

    ghost view = { λ part. part.bytes.items };
}

impl PathPart {
    /// The part of these bytes. It takes no memory.
    pub fn of(bytes: Vec<u8>) -> PathPart
        ensures { result ≡ bytes.items }
    {
        PathPart { bytes }
    }

    /// Its bytes. It takes no memory.
    pub fn items(&self) -> &[u8]
        ensures { result.now ≡ self.now }
    {
        self.bytes.as_slice()
    }
}

impl TryCopy for PathPart {
    fn try_copy(&self, alloc: Global) -> Result<PathPart, Memory> {
        Ok(PathPart {
            bytes: self.bytes.as_slice().to_vec(alloc)?,
        })
    }
}

impl PartialEq for PathPart {
    ghost use Rattle.std.specs.Prelude.{nat_eq};
    ghost use Rattle.std.specs.Cmp.{partial_equiv_from_equiv};
    ghost use Rattle.std.specs.Cmp.Lexicographic.{pointwise, nat_list_eq_equiv};

    ghost eq = { pointwise nat_eq };

    ghost laws = { partial_equiv_from_equiv nat_list_eq_equiv };

    fn eq(&self, other: &PathPart) -> bool {
        self.items() == other.items()
    }
}

impl Eq for PathPart {
    ghost use Rattle.std.specs.Cmp.Lexicographic.{nat_list_eq_equiv};

    ghost laws = { nat_list_eq_equiv };
}

impl PartialOrd for PathPart {
    ghost use Rattle.std.specs.Prelude.{Some};
    ghost use Rattle.std.specs.Ordering.{nat_cmp};
    ghost use Rattle.std.specs.Cmp.Lexicographic.{slice_cmp, texts_po};

    ghost partial_cmp = { λ x y. Some (slice_cmp nat_cmp x y) };

    ghost laws = { texts_po };

    fn partial_cmp(&self, other: &PathPart) -> Option<Ordering> {
        Some(self.cmp(other))
    }
}

impl Ord for PathPart {
    ghost use Rattle.std.specs.Ordering.{nat_cmp};
    ghost use Rattle.std.specs.Cmp.Lexicographic.{slice_cmp, nat_list_cmp_total, texts_ties};
    ghost use mathlib.Core.Path.{refl};

    ghost cmp = { slice_cmp nat_cmp };

    ghost total = { nat_list_cmp_total };

    ghost matches_partial_cmp = { λ x y. refl };

    ghost matches_eq = { texts_ties };

    fn cmp(&self, other: &PathPart) -> Ordering {
        self.items().cmp(other.items())
    }
}
