//! What holds of the partition as a whole.
ghost use Rattle.std.specs.Prelude.{◌≡◌, ℕ, ◌<◌, ◌≤◌};
ghost use Rattle.partition_map.specs.Partition.{IsInRange};

/// The ranges of the tablets hold each hash in exactly one.
pub fn parts_all_hashes()
    ensures some { (hash n : ℕ) → hash < 65536 → 1 ≤ n → (i : ℕ) × (i < n) × IsInRange hash i n }
    ensures one { (hash n i j : ℕ) → 1 ≤ n → IsInRange hash i n → IsInRange hash j n → i ≡ j }
{}
