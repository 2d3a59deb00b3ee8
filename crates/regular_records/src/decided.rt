//! Where the newest version stands that decides what is at a path.
use hybrid_time::HybridTime;

/// Where the newest version stands that decides what is at a path. Of two for one path the greater one is that of the newer
/// version.
#[derive(Clone, Copy, Debug, PartialEq, Eq, PartialOrd, Ord)]
pub struct Decided {
    /// Its commit time.
    pub at: HybridTime,
    /// Its number among the writes of its transaction, from 0.
    pub number: u32,
    /// How many parts its path has, from 1 to 5.
    pub parts: usize,
}
