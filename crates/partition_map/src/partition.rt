//! The tablet of a hash, and the hashes of a tablet.
ghost use Rattle.std.specs.Prelude.{◌≡◌, ℕ, ◌+◌, ◌*◌, ◌<◌, ◌≤◌, ◌↔◌};
ghost use Rattle.partition_map.specs.Partition.{owner, first_hash};

/// How many hashes there are.
const HASHES: u32 = 65536;

/// The tablet of `n` that owns a hash.
pub fn tablet_of(hash: u16, n: u32) -> u32
    requires some { 1 ≤ n }
    requires few { n ≤ 64 }
    ensures value { result ≡ owner hash n }
    ensures is_tablet { result < n }
{
    u32::from(hash) * n / HASHES
}

/// The first hash that tablet `i` of `n` owns, and the hash after its last, which is 65,536 for the last tablet.
pub fn range_of(i: u32, n: u32) -> (u32, u32)
    requires some { 1 ≤ n }
    requires few { n ≤ 64 }
    requires is_tablet { i < n }
    ensures value { result ≡ (first_hash i n, first_hash (i + 1) n) }
    ensures owned { (hash : ℕ) → (result.0 ≤ hash) × (hash < result.1) ↔ (owner hash n ≡ i) }
    ensures within { result.1 ≤ 65536 }
{
    let first = (i * HASHES).div_ceil(n);
    let next = ((i + 1) * HASHES).div_ceil(n);
    (first, next)
}
