//! The contents of a tablet, and how a record of the log changes them.
ghost use Rattle.std.specs.Prelude.{◌≡◌, ℕ, List, [], ◌∷◌, map, IfOk, OnOk, OnErr};
ghost use Rattle.std.specs.List.{All};
ghost use Rattle.txn_data.specs.declared.version.Version.{Version as Seen};
ghost use Rattle.txn_types.specs.Tablet.{Intent};
ghost use Rattle.tablet_log.specs.Replay.{intents_after, versions_after, tablet_of};
ghost use Rattle.tablet_records.specs.Keeps.{Keeps, PathFits, version_of};

use crate::fitting_intents::FittingIntents;
use doc_path::Path;
use docdb_base::{Memory, TryCopy};
use hybrid_time::HybridTime;
use log_record::LogRecord;
use regular_records::Versions;
use std::alloc::Global;
use txn_types::{Meta, Op, Provisional, TxnId, Version};

/// The contents of a tablet. Contracts see them by the provisional writes and the versions for which they stand.
#[derive(Drop)]
pub struct TabletRecords<V: Versions> {
    pub(crate) alloc: Global,
    pub(crate) intents: FittingIntents<V>,
    pub(crate) versions: V,
}

impl<V: Versions + Drop> TabletRecords<V> {
    /// No provisional writes and no versions; `versions` is an empty set. It takes no memory.
    pub fn new(alloc: Global, versions: V) -> TabletRecords<V>
        requires { V.holds versions [] }
        ensures { Keeps V.holds result [] [] }
    {
        TabletRecords {
            alloc,
            intents: FittingIntents::new(alloc),
            versions,
        }
    }

    /// What these records of a log stand for, in versions of the same kind.
    pub fn replayed(&self, records: &[LogRecord]) -> Result<TabletRecords<V>, Memory>
        requires { All (PathFits V.fits) records.now }
        ensures { IfOk result (λ all. Keeps V.holds all (tablet_of records.now).intents (tablet_of records.now).versions) }
    {
        let empty = self.versions.empty_like()?;
        let mut all = TabletRecords::new(self.alloc, empty);
        for logged in records {
            all.apply(logged)?;
        }
        Ok(all)
    }

    /// Takes in one more record of the log. If memory runs out, it stands for what it stood for.
    pub fn apply(&mut self, logged: &LogRecord) -> Result<(), Memory>
        requires { PathFits V.fits logged.now }
        ensures ok { (ps : List Intent) (vs : List Seen) → Keeps V.holds self.old ps vs → OnOk result (Keeps V.holds self.new (intents_after ps logged.now) (versions_after vs ps logged.now)) }
        ensures memory { (ps : List Intent) (vs : List Seen) → Keeps V.holds self.old ps vs → OnErr result (Keeps V.holds self.new ps vs) }
    {
        match logged {
            LogRecord::Write {
                meta,
                number,
                at,
                path,
                op,
            } => self.add_write(meta, *number, *at, path, op),
            LogRecord::Apply { txn, at } => self.commit(*txn, *at),
            LogRecord::Clean { txn } => {
                self.clean(*txn);
                Ok(())
            }
            LogRecord::Single { txn, at, path, op } => self.add_single(*txn, *at, path, op),
            _ => Ok(()),
        }
    }

    // A write becomes provisional.
    fn add_write(
        &mut self,
        meta: &Meta,
        number: u32,
        at: HybridTime,
        path: &Path,
        op: &Op,
    ) -> Result<(), Memory>
        requires { V.fits path.now }
        ensures ok { (ps : List Intent) (vs : List Seen) → Keeps V.holds self.old ps vs → OnOk result (Keeps V.holds self.new (intents_after ps (LogRecord.Write meta.now number at path.now op.now)) vs) }
        ensures memory { (ps : List Intent) (vs : List Seen) → Keeps V.holds self.old ps vs → OnErr result (Keeps V.holds self.new ps vs) }
    {
        self.intents.add(meta, number, path, op, at)?;
        Ok(())
    }

    // The provisional writes of a transaction become versions at its commit time.
    fn commit(&mut self, txn: TxnId, at: HybridTime) -> Result<(), Memory>
        ensures ok { (ps : List Intent) (vs : List Seen) → Keeps V.holds self.old ps vs → OnOk result (Keeps V.holds self.new (intents_after ps (LogRecord.Apply txn at)) (versions_after vs ps (LogRecord.Apply txn at))) }
        ensures memory { (ps : List Intent) (vs : List Seen) → Keeps V.holds self.old ps vs → OnErr result (Keeps V.holds self.new ps vs) }
    {
        let writes = self.intents.records_of(txn)?;
        let list = versions_of(self.alloc, at, writes)?;
        self.versions.add_all(list)?;
        self.intents.drop_of(txn);
        Ok(())
    }

    // The provisional writes of a transaction go.
    fn clean(&mut self, txn: TxnId)
        ensures { (ps : List Intent) (vs : List Seen) → Keeps V.holds self.old ps vs → Keeps V.holds self.new (intents_after ps (LogRecord.Clean txn)) vs }
    {
        self.intents.drop_of(txn);
    }

    // A write is committed alone.
    fn add_single(
        &mut self,
        _txn: TxnId,
        at: HybridTime,
        path: &Path,
        op: &Op,
    ) -> Result<(), Memory>
        requires { V.fits path.now }
        ensures ok { (ps : List Intent) (vs : List Seen) → Keeps V.holds self.old ps vs → OnOk result (Keeps V.holds self.new ps (versions_after vs ps (LogRecord.Single _txn at path.now op.now))) }
        ensures memory { (ps : List Intent) (vs : List Seen) → Keeps V.holds self.old ps vs → OnErr result (Keeps V.holds self.new ps vs) }
    {
        let list = single_version(self.alloc, at, path, op)?;
        self.versions.add_all(list)?;
        Ok(())
    }
}

// The version of a write that is committed alone.
fn single_version(
    alloc: Global,
    at: HybridTime,
    path: &Path,
    op: &Op,
) -> Result<Vec<Version>, Memory>
    ensures { IfOk result (λ list. list.items ≡ (record { path = path.now; at = at; wrote = at; number = 0; op = op.now }) ∷ []) }
{
    let path = path.try_copy(alloc)?;
    let op = op.try_copy(alloc)?;
    let mut list = Vec::new(alloc);
    list.push(Version {
        path,
        at,
        wrote: at,
        number: 0,
        op,
    })?;
    Ok(list)
}

// Provisional writes as versions at a commit time.
fn versions_of(
    alloc: Global,
    commit_time: HybridTime,
    writes: Vec<Provisional>,
) -> Result<Vec<Version>, Memory>
    ensures { IfOk result (λ list. list.items ≡ map (version_of commit_time) writes.items) }
{
    let mut list = Vec::new(alloc);
    for write in writes {
        list.push(Version {
            path: write.path,
            at: commit_time,
            wrote: write.wrote,
            number: write.number,
            op: write.op,
        })?;
    }
    Ok(list)
}
