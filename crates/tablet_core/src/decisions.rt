//! What the table decides of each request while the tablet is up. Nothing is changed.
ghost use Rattle.std.specs.Prelude.{◌≡◌, ◌&&◌, Option, ℕ, Some, None, IsTrue, IfOk, IfErr, OnOk};
ghost use Rattle.std.specs.List.{All};
ghost use Rattle.txn_data.specs.declared.request.Request.{Request as Asked};
ghost use Rattle.txn_data.specs.declared.request.Request.TheVariants as request;
ghost use Rattle.log_record.specs.Spelling.{is_path, is_op};
ghost use Rattle.txn_types.specs.Tablet.{local_limit};
ghost use Rattle.tablet_core.specs.Decisions.{IsDecided, IsLoggable, IsUndecided, Says};
ghost use Rattle.tablet_core.specs.Requests.{IsUpRequest};

use crate::tablet_core::TabletCore;
use crate::undecided::Undecided;
use conflict_matrix::WriteDecision;
use doc_path::Path;
use docdb_base::{Memory, TryCopy};
use docdb_outside::LogStore;
use hybrid_time::HybridTime;
use leased_log::{Decision, refusal_of};
use log_record::LogRecord;
use regular_records::Versions;
use safe_time::it_is_the_clock_of_the_tables;
use std::alloc::Global;
use tablet_records::single_floor;
use txn_types::{Fates, Meta, Op, Paths, ReadKind, Refusal, Reply, TxnId, Window};

impl<V: Versions + Drop, L: LogStore> TabletCore<V, L> {
    /// Nothing is decided while the tablet is down.
    fn ensure_up(&self) -> Result<(), Undecided>
        ensures up { OnOk result (self.now.log.down ≡ None) }
        ensures down { IfErr result (IsUndecided self.now.log.down) }
    {
        match self.log.down() {
            Some(since) => Err(Undecided::Down { since }),
            None => Ok(()),
        }
    }

    /// The other transactions with a related provisional write are told.
    pub(crate) fn decide_list_write(&self, txn: TxnId, path: &Path) -> Result<Decision, Undecided>
        ensures { IsDecided V.holds V.fits self.now None (request.ListWrite txn path.now) result }
    {
        self.ensure_up()?;
        let others = self.records.list_write(txn, path)?;
        Ok(Decision::tell(Reply::Others(others)))
    }

    /// A write that meets no conflict and no overlap becomes provisional at the next time.
    pub(crate) fn decide_write(
        &self,
        meta: &Meta,
        number: u32,
        path: &Path,
        op: &Op,
        read: HybridTime,
        seen: HybridTime,
        fates: &Fates,
        reading: u64,
    ) -> Result<Decision, Undecided>
        requires spelled { IsTrue (is_path path.now && is_op op.now) }
        requires fits { V.fits path.now }
        ensures { IsDecided V.holds V.fits self.now (Some reading) (request.Write meta.now number path.now op.now read seen fates.now) result }
    {
        self.ensure_up()?;
        it_is_the_clock_of_the_tables();
        let decided = self.records.decide_write(meta.txn, path, read, fates)?;
        match decided {
            WriteDecision::Conflict { other } => Ok(Decision::refuse(Refusal::Conflict { other })),
            WriteDecision::Overlap { at } => Ok(Decision::refuse(Refusal::Overlap { at })),
            WriteDecision::Go => match self.log.step(reading, seen, true) {
                Err(refusal) => Ok(Decision::refuse(refusal_of(refusal))),
                Ok(step) => Ok(Decision {
                    reply: Reply::Written { at: step.time },
                    step: Some(step),
                    own: Some(write_record(self.alloc, meta, number, step.time, path, op)?),
                }),
            },
        }
    }

    /// A write alone that meets no conflict is committed at the next time.
    pub(crate) fn decide_single(
        &self,
        txn: TxnId,
        path: &Path,
        op: &Op,
        seen: HybridTime,
        fates: &Fates,
        reading: u64,
    ) -> Result<Decision, Undecided>
        requires spelled { IsTrue (is_path path.now && is_op op.now) }
        requires fits { V.fits path.now }
        ensures { IsDecided V.holds V.fits self.now (Some reading) (request.Single txn path.now op.now seen fates.now) result }
    {
        self.ensure_up()?;
        it_is_the_clock_of_the_tables();
        let conflict = self.records.decide_single(txn, path, fates)?;
        match conflict {
            Some(other) => Ok(Decision::refuse(Refusal::Conflict { other })),
            None => match self.log.step(reading, single_floor(seen, fates), true) {
                Err(refusal) => Ok(Decision::refuse(refusal_of(refusal))),
                Ok(step) => Ok(Decision {
                    reply: Reply::SingleDone { at: step.time },
                    step: Some(step),
                    own: Some(single_record(self.alloc, txn, step.time, path, op)?),
                }),
            },
        }
    }

    /// At a time that is not below `t` a read is told its local limit and whom it may have to ask about.
    pub(crate) fn decide_list_read(
        &self,
        own: Option<TxnId>,
        paths: &Paths,
        t: HybridTime,
        g: HybridTime,
        limit: Option<HybridTime>,
        reading: u64,
    ) -> Result<Decision, Undecided>
        ensures { IsDecided V.holds V.fits self.now (Some reading) (request.ListRead own paths.now t g limit) result }
    {
        self.ensure_up()?;
        it_is_the_clock_of_the_tables();
        match self.log.step(reading, t, false) {
            Err(refusal) => Ok(Decision::refuse(refusal_of(refusal))),
            Ok(step) => {
                let limit = local_limit(limit, step.time, g);
                let others = self.records.list_read(own, paths, t, limit)?;
                Ok(Decision {
                    reply: Reply::Listed { limit, others },
                    step: Some(step),
                    own: None,
                })
            }
        }
    }

    /// What is met, or the rows, are told.
    pub(crate) fn decide_collect(
        &self,
        own: Option<TxnId>,
        kind: ReadKind,
        paths: &Paths,
        t: HybridTime,
        window: Option<Window>,
        fates: &Fates,
    ) -> Result<Decision, Undecided>
        requires { All V.fits paths.now }
        ensures { IsDecided V.holds V.fits self.now None (request.Collect own kind paths.now t window fates.now) result }
    {
        self.ensure_up()?;
        let reply = self.records.collect(own, kind, paths, t, window, fates)?;
        Ok(Decision::tell(reply))
    }

    /// All transactions with provisional writes are told.
    pub(crate) fn decide_list_intents(&self) -> Result<Decision, Undecided>
        ensures { IsDecided V.holds V.fits self.now None request.ListIntents result }
    {
        self.ensure_up()?;
        let all = self.records.list_intents()?;
        Ok(Decision::tell(Reply::Intents(all)))
    }

    /// At a time that is not below `at` the provisional writes of the transaction become versions. Without any nothing is
    /// done.
    pub(crate) fn decide_apply(
        &self,
        txn: TxnId,
        at: HybridTime,
        reading: u64,
    ) -> Result<Decision, Undecided>
        ensures { IsDecided V.holds V.fits self.now (Some reading) (request.Apply txn at) result }
    {
        self.ensure_up()?;
        it_is_the_clock_of_the_tables();
        if !self.records.has_any(txn) {
            return Ok(Decision::tell(Reply::AppliedHere));
        }
        match self.log.step(reading, at, false) {
            Err(refusal) => Ok(Decision::refuse(refusal_of(refusal))),
            Ok(step) => Ok(Decision {
                reply: Reply::AppliedHere,
                step: Some(step),
                own: Some(LogRecord::Apply { txn, at }),
            }),
        }
    }

    /// The provisional writes of the transaction go. Without any nothing is done.
    pub(crate) fn decide_clean(&self, txn: TxnId) -> Result<Decision, Undecided>
        ensures { IsDecided V.holds V.fits self.now None (request.Clean txn) result }
    {
        self.ensure_up()?;
        if self.records.has_any(txn) {
            Ok(Decision::log(LogRecord::Clean { txn }, Reply::Cleaned))
        } else {
            Ok(Decision::tell(Reply::Cleaned))
        }
    }

    /// Any request is refused, since the tablet is down.
    pub(crate) fn refuse_down(&self, since: u64) -> Decision
        requires { self.now.log.down ≡ Some since }
        ensures loggable { IsLoggable V.fits result }
        ensures says { (reading : Option ℕ) (asked : Asked) → IsUpRequest reading asked → Says V.holds self.now reading asked result }
    {
        Decision::refuse(Refusal::Down { since })
    }
}

/// The local limit of a read: the given one, or the lesser of the time reached and `g`.
fn local_limit(given: Option<HybridTime>, now: HybridTime, g: HybridTime) -> HybridTime
    ensures { result ≡ local_limit given now g }
{
    match given {
        Some(limit) => limit,
        None if now < g => now,
        None => g,
    }
}

fn write_record(
    alloc: Global,
    meta: &Meta,
    number: u32,
    at: HybridTime,
    path: &Path,
    op: &Op,
) -> Result<LogRecord, Memory>
    ensures { IfOk result (λ own. own ≡ LogRecord.Write meta.now number at path.now op.now) }
{
    Ok(LogRecord::Write {
        meta: *meta,
        number,
        at,
        path: path.try_copy(alloc)?,
        op: op.try_copy(alloc)?,
    })
}

fn single_record(
    alloc: Global,
    txn: TxnId,
    at: HybridTime,
    path: &Path,
    op: &Op,
) -> Result<LogRecord, Memory>
    ensures { IfOk result (λ own. own ≡ LogRecord.Single txn at path.now op.now) }
{
    Ok(LogRecord::Single {
        txn,
        at,
        path: path.try_copy(alloc)?,
        op: op.try_copy(alloc)?,
    })
}
