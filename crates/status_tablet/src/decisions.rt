//! What the table decides of each request while the status tablet is up. Nothing is changed.
ghost use Rattle.std.specs.Prelude.{◌≡◌, ◌≤◌, Some, None, IsTrue, IfOk, length, option_copied};
ghost use Rattle.txn_data.specs.declared.request.Request.TheVariants as request;
ghost use Rattle.status_tablet.specs.Keeps.{fate_kept, yields, forgets};
ghost use Rattle.status_tablet.specs.Decisions.{IsPending, Says, is_spelled};

use crate::mark::Mark;
use crate::status_decision::StatusDecision;
use crate::status_tablet::StatusTablet;
use crate::txn_record::TxnRecord;
use docdb_base::{Memory, TryCopy};
use docdb_outside::LogStore;
use hybrid_time::HybridTime;
use leased_log::{Decision, refusal_of};
use log_record::LogRecord;
use safe_time::it_is_the_clock_of_the_tables;
use txn_types::{Fate, Isolation, Reply, Tablets, TxnId};

impl<L: LogStore> StatusTablet<L> {
    /// A record of the transaction is made.
    pub(crate) fn decide_begin(
        &self,
        txn: TxnId,
        isolation: Isolation,
        priority: u32,
    ) -> StatusDecision
        ensures says { self.now.log.down ≡ None → Says self.now None (request.Begin txn isolation priority) result }
        ensures spelled { IsTrue (is_spelled result.decision.own) }
    {
        let own = LogRecord::Begin {
            txn,
            isolation,
            priority,
        };
        StatusDecision::plain(Decision::log(own, Reply::Begun))
    }

    /// The fate is told at a time that is not below `t`.
    pub(crate) fn decide_ask(&self, txn: TxnId, t: HybridTime, reading: u64) -> StatusDecision
        ensures says { self.now.log.down ≡ None → Says self.now (Some reading) (request.AskFate txn t) result }
        ensures spelled { IsTrue (is_spelled result.decision.own) }
    {
        it_is_the_clock_of_the_tables();
        match self.log.step(reading, t, false) {
            Err(refusal) => StatusDecision::plain(Decision::refuse(refusal_of(refusal))),
            Ok(step) => StatusDecision::plain(Decision {
                reply: Reply::FateIs(fate_of(self.records.get(txn))),
                step: Some(step),
                own: None,
            }),
        }
    }

    /// A transaction of a lower priority is aborted; else its fate is told.
    pub(crate) fn decide_resolve(&self, txn: TxnId, by: TxnId, priority: u32) -> StatusDecision
        ensures says { self.now.log.down ≡ None → Says self.now None (request.Resolve txn by priority) result }
        ensures spelled { IsTrue (is_spelled result.decision.own) }
    {
        if yields(self.records.get(txn), priority) {
            let own = LogRecord::Abort { txn, by: Some(by) };
            StatusDecision::plain(Decision::log(own, Reply::FateIs(Fate::Aborted)))
        } else {
            let fate = fate_of(self.records.get(txn));
            StatusDecision::plain(Decision::tell(Reply::FateIs(fate)))
        }
    }

    /// A pending transaction commits at the next time; else its end is told.
    pub(crate) fn decide_commit(
        &self,
        txn: TxnId,
        floor: HybridTime,
        tablets: &Tablets,
        reading: u64,
    ) -> Result<StatusDecision, Memory>
        requires { length tablets.now ≤ 64 }
        ensures says { self.now.log.down ≡ None → IfOk result (λ decided. Says self.now (Some reading) (request.Commit txn floor tablets.now) decided) }
        ensures spelled { IfOk result (λ decided. IsTrue (is_spelled decided.decision.own)) }
    {
        match self.records.get(txn) {
            None => Ok(StatusDecision::plain(Decision::tell(Reply::Gone))),
            Some(TxnRecord::Aborted { by }) => {
                Ok(StatusDecision::plain(Decision::tell(Reply::AbortedBy { by: *by })))
            }
            Some(TxnRecord::Committed(commit)) => Ok(StatusDecision::told(txn, commit.at)),
            Some(TxnRecord::Pending { .. }) => self.decide_new_commit(txn, floor, tablets, reading),
        }
    }

    fn decide_new_commit(
        &self,
        txn: TxnId,
        floor: HybridTime,
        tablets: &Tablets,
        reading: u64,
    ) -> Result<StatusDecision, Memory>
        requires { length tablets.now ≤ 64 }
        ensures says { IsPending self.now txn → self.now.log.down ≡ None → IfOk result (λ decided. Says self.now (Some reading) (request.Commit txn floor tablets.now) decided) }
        ensures spelled { IfOk result (λ decided. IsTrue (is_spelled decided.decision.own)) }
    {
        it_is_the_clock_of_the_tables();
        match self.log.step(reading, floor, true) {
            Err(refusal) => Ok(StatusDecision::plain(Decision::refuse(refusal_of(refusal)))),
            Ok(step) => Ok(StatusDecision {
                decision: Decision {
                    reply: Reply::Committed { at: step.time },
                    step: Some(step),
                    own: Some(LogRecord::Commit {
                        txn,
                        at: step.time,
                        tablets: tablets.try_copy(self.alloc)?,
                    }),
                },
                mark: Mark::Told(txn),
            }),
        }
    }

    /// A transaction that did not commit goes; of one that did the time is told.
    pub(crate) fn decide_abort(&self, txn: TxnId) -> StatusDecision
        ensures says { self.now.log.down ≡ None → Says self.now None (request.Abort txn) result }
        ensures spelled { IsTrue (is_spelled result.decision.own) }
    {
        match self.records.get(txn) {
            None => StatusDecision::plain(Decision::tell(Reply::Ended)),
            Some(TxnRecord::Committed(commit)) => StatusDecision::told(txn, commit.at),
            Some(_) => StatusDecision::plain(Decision::log(
                LogRecord::Abort { txn, by: None },
                Reply::Ended,
            )),
        }
    }

    /// The tablet is noted, and a commit that may go goes.
    pub(crate) fn decide_applied(&self, txn: TxnId, tablet: u32) -> StatusDecision
        ensures says { self.now.log.down ≡ None → Says self.now None (request.Applied txn tablet) result }
        ensures spelled { IsTrue (is_spelled result.decision.own) }
    {
        let mark = Mark::Applied { txn, tablet };
        if forgets(self.records.get(txn), tablet) {
            let decision = Decision::log(LogRecord::Forget { txn }, Reply::Noted);
            StatusDecision { decision, mark }
        } else {
            let decision = Decision::tell(Reply::Noted);
            StatusDecision { decision, mark }
        }
    }
}

fn fate_of(kept: Option<&TxnRecord>) -> Fate
    ensures { result ≡ fate_kept (option_copied kept.entry) }
{
    match kept {
        None => Fate::Absent,
        Some(TxnRecord::Pending { .. }) => Fate::Pending,
        Some(TxnRecord::Committed(commit)) => Fate::Committed { at: commit.at },
        Some(TxnRecord::Aborted { .. }) => Fate::Aborted,
    }
}

fn yields(kept: Option<&TxnRecord>, priority: u32) -> bool
    ensures { result ≡ yields (option_copied kept.entry) priority }
{
    match kept {
        Some(TxnRecord::Pending { priority: own }) => *own < priority,
        _ => false,
    }
}

fn forgets(kept: Option<&TxnRecord>, tablet: u32) -> bool
    ensures { result ≡ forgets (option_copied kept.entry) tablet }
{
    match kept {
        Some(TxnRecord::Committed(commit)) => {
            !commit.stays && commit.sure && commit.waits.only(tablet)
        }
        _ => false,
    }
}
