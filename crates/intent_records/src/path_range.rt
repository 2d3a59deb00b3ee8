//! The paths from one on and before another.
ghost use Rattle.std.specs.Prelude.{◌≡◌, false};
ghost use Rattle.std.specs.Ordering.{is_gt};
ghost use Rattle.doc_path.specs.Path.{path_order};

use doc_path::Path;

/// The paths from one on and before another.
#[derive(Drop)]
pub struct PathRange {
    pub first: Path,
    /// The first path that is not in it any more.
    pub end: Path,
    ghost forward: { is_gt (path_order first end) ≡ false },
}
