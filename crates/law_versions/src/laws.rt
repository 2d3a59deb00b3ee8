//! The versions of a tablet in every run, for proofs of callers. A call does nothing.
ghost use Rattle.law_versions.specs.Laws.{CommitsAreThere, IntentsAreWrites, VersionsAreCommits, VersionsAreUnique, VersionsStay};

/// Each version of a tablet was made by a write of what is committed.
pub fn versions_are_commits()
    ensures { VersionsAreCommits }
{}

/// Each provisional write of what is committed in the end was made by a write of it, as the version that it becomes.
pub fn intents_are_writes()
    ensures { IntentsAreWrites }
{}

/// Each write of what is committed is a version of the tablet that accepted it, or provisional there; a single write is a
/// version.
pub fn commits_are_there()
    ensures { CommitsAreThere }
{}

/// No version gives way to another.
pub fn versions_stay()
    ensures { VersionsStay }
{}

/// No version has the path, the commit time and the number of another.
pub fn versions_are_unique()
    ensures { VersionsAreUnique }
{}
