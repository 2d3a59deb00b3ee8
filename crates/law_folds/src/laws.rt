//! What tablets show, and the fold of all commits, in every run, for proofs of callers. A call does nothing.
ghost use Rattle.law_folds.specs.Laws.{ReadsShowTheFold, TabletsShowTheFold};

/// Versions that are a tablet's writes of what is committed up to a time leave what the fold of all commits leaves.
pub fn tablets_show_the_fold()
    ensures { TabletsShowTheFold }
{}

/// Where all tablets of a read answered from such versions, the read shows the fold of all commits, with the transaction's
/// own writes on top.
pub fn reads_show_the_fold()
    ensures { ReadsShowTheFold }
{}
