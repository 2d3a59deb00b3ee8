//! The form in which versions are kept.
use crate::version_key::VersionKey;
use crate::version_value::VersionValue;
use doc_path::PathPart;
use std::collections::BTreeMap;

/// The versions of one path, the newest first. A slot without a version was made for a version that is still to come, or
/// that was not added because memory ran out.
pub type PathVersions = BTreeMap<VersionKey, Option<VersionValue>>;

/// The versions of all paths, by the parts of the path.
pub type VersionStore = BTreeMap<Vec<PathPart>, PathVersions>;
