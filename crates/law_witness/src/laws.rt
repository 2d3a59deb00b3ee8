//! Runs that have what the laws speak of, runs that miss one premise, and entries that no run has. A call does nothing.
ghost use Rattle.law_witness.specs.Branches.{both_done};
ghost use Rattle.law_witness.specs.Endings.{IsTold, commit_after_abort, abort_after_commit, WrongTellsAreRefused};
ghost use Rattle.law_witness.specs.Needed.{NotFreshBeyondSkew, MissesLaterCommit, MissesUnrelatedCommit, OneTabletIsNeeded, SingleNotApart, RelatedWritesAreNeeded};
ghost use Rattle.law_witness.specs.Scripts.{run_of, one_session, in_order, read_beside, question_first, lost, end_refused, kept, commit_again, read_own, rows_inside, two_tablets, read_both, rows_of_two, beyond_skew, beyond_skew_script, within_skew, read_unrelated, single_after};
ghost use Rattle.law_witness.specs.Shows.{ShowsAll, TwoWritersCommit, KeptCommitStands, ReadsInside, ReadsTwoTablets, LeavesOne, PlanIsDone};
ghost use Rattle.law_witness.specs.Witness.{small, whole, rows, x, committed_at};
ghost use Rattle.law_witness.specs.Wrong.{WrongEntriesAreRefused};
ghost use Rattle.std.specs.Prelude.{[]};
ghost use Rattle.txn_data.specs.declared.command.Command.TheVariants as command;
ghost use Rattle.txn_data.specs.declared.told.Told.TheVariants as told;
ghost use Rattle.worked_cases.specs.Simulated.{all_done, by_turns};

/// In this run a transaction commits, a status tablet restarts, a read meets the commit and shows it in its second round,
/// and a pass applies it.
pub fn a_run_shows_all()
    ensures { ShowsAll small whole rows }
{}

/// In this run two transactions commit that write one document.
pub fn two_writers_commit()
    ensures { TwoWritersCommit small both_done }
{}

/// Eleven entries that no run has are refused, each after a run: in times of commits and writes, in what is listed, told,
/// met and applied, and in a read without its second round.
pub fn wrong_entries_are_refused()
    ensures { WrongEntriesAreRefused }
{}

/// In this run the append of a commit fails and a restart keeps it; then the commit stands, and it is told.
pub fn a_kept_commit_stands()
    ensures { KeptCommitStands small (all_done small kept commit_again []) }
{}

/// In this run a read finishes inside a transaction. It shows what the transaction wrote, and what was committed before it.
pub fn a_read_inside_finishes()
    ensures { ReadsInside small (run_of small read_own) rows_inside }
{}

/// In this run a read over two tablets meets a commit at the second, and finishes in its second round.
pub fn a_read_over_two_tablets_restarts()
    ensures { ReadsTwoTablets two_tablets (run_of two_tablets read_both) rows_of_two }
{}

/// In this run the append of a commit is lost and its session cannot end. The last pass is told that one transaction is left,
/// and just that is left.
pub fn a_transaction_is_left()
    ensures { LeavesOne small (all_done small lost end_refused []) }
{}

/// This run does all of a plan that can be run, in the order and with the readings of its schedule.
pub fn a_plan_is_done()
    ensures { PlanIsDone small one_session (run_of small in_order) }
{}

/// In this run the append of an abort fails and a restart keeps it. Then the commit of that transaction is told Ended.
pub fn a_commit_is_told_ended()
    ensures { IsTold small (all_done small kept commit_after_abort []) command.Commit (told.Ended x) }
{}

/// In this run the append of a commit fails and a restart keeps it. Then the abort of that transaction is told Committed.
pub fn an_abort_is_told_committed()
    ensures { IsTold small (all_done small kept abort_after_commit []) command.Abort (told.Committed x committed_at) }
{}

/// Two tells that no run has are refused, each after a run: a commit that is told Ended though it committed, and a last pass
/// that is told one too few left.
pub fn wrong_tells_are_refused()
    ensures { WrongTellsAreRefused }
{}

/// In this run places agree, but clocks do not agree within the skew before a read. The read is not fresh: a related commit
/// that was told before it began is later than its final time.
pub fn freshness_needs_the_skew()
    ensures { NotFreshBeyondSkew beyond_skew (run_of beyond_skew beyond_skew_script) }
{}

/// In this run a related commit is told before a read is, but only after the read began. The read is earlier than the commit.
pub fn freshness_needs_a_told_commit()
    ensures { MissesLaterCommit small (by_turns small read_beside question_first []) }
{}

/// In this run clocks agreed within the skew, and a commit was told before a read began that is not related to it. The read is
/// earlier than the commit.
pub fn freshness_needs_a_related_commit()
    ensures { MissesUnrelatedCommit within_skew (run_of within_skew read_unrelated) }
{}

/// In these runs a document is written at two tablets. Then a read is not right, or not fresh though clocks agreed within the
/// skew; two commits with related writes have one time; and two transactions with related writes overlap.
pub fn promises_need_one_tablet()
    ensures { OneTabletIsNeeded }
{}

/// In this run a transaction and a single write that are committed write one document, and they are not apart.
pub fn only_transactions_are_apart()
    ensures { SingleNotApart small (run_of small single_after) }
{}

/// In these runs commits that are not related have one time, and transactions that are not related overlap.
pub fn only_related_writes_differ()
    ensures { RelatedWritesAreNeeded }
{}
