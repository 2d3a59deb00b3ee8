//! A versioned key.

use doc_path::Path;
use hybrid_time::HybridTime;

/// The key of a version: what stands at a path since a write that committed at a time.
#[derive(Debug, Drop)]
pub struct SubDocKey {
    /// The document key and up to four subkeys, each spelled.
    pub path: Path,
    /// The commit time of the write.
    pub at: HybridTime,
    /// Which of the writes of its transaction it is.
    pub number: u32,
}
