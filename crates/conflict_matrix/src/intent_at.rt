//! An intent on a path.
use crate::kind::Kind;
use doc_path::Path;

/// An intent on a path.
#[derive(Debug, Drop)]
pub struct IntentAt {
    /// Where it stands.
    pub path: Path,
    /// What it is taken for.
    pub kind: Kind,
}
