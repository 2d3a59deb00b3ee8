//! Committed transactions with related writes in every run, for proofs of callers. A call does nothing.
ghost use Rattle.law_related_writes.specs.Laws.{RelatedCommitsDiffer, RelatedCommitsReadAbove};

/// Where places agree, two committed transactions with related writes never have one commit time, single writes among them.
pub fn related_commits_differ()
    ensures { RelatedCommitsDiffer }
{}

/// Where places agree, of two committed snapshot transactions with related writes, an accepted write of the one read not
/// below the commit time of the other.
pub fn related_commits_read_above()
    ensures { RelatedCommitsReadAbove }
{}
