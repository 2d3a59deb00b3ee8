//! What a status tablet keeps of all transactions.
ghost use Rattle.std.specs.Prelude.{◌≡◌, ℕ, None, Some, false, nat_eq, if◌then◌else◌, option_copied, option_map, OnOk, OnErr, IfOk};
ghost use Rattle.std.specs.List.{fold};
ghost use Rattle.status_tablet.specs.Keeps.{names_none, kept_at, kept_after, kept_with, told, without, marked};

use crate::commit::Commit;
use crate::mark::Mark;
use crate::txn_record::TxnRecord;
use crate::waits::Waits;
use docdb_base::{Memory, TryCopy};
use hybrid_time::HybridTime;
use log_record::LogRecord;
use std::alloc::{AllocError, Global};
use std::collections::BTreeMap;
use txn_types::{Tablets, TxnId};

/// What a status tablet keeps of all transactions.
#[derive(Debug, Drop)]
pub struct TxnRecords {
    pub(crate) alloc: Global,
    pub(crate) map: BTreeMap<TxnId, TxnRecord>,
}

impl TxnRecords {
    /// No transactions. It takes no memory.
    pub fn new(alloc: Global) -> TxnRecords
        ensures { (x : ℕ) → kept_at result.map.entries x ≡ None }
    {
        TxnRecords {
            alloc,
            map: BTreeMap::new(alloc),
        }
    }

    /// What is kept after these records of a log.
    pub fn replayed(alloc: Global, records: &[LogRecord]) -> Result<TxnRecords, Memory>
        ensures { IfOk result (λ all. (x : ℕ) → kept_at all.map.entries x ≡ fold (λ kept r. kept_after r x kept) None records.now) }
    {
        let mut all = TxnRecords::new(alloc);
        for logged in records {
            all.apply(logged)?;
        }
        Ok(all)
    }

    /// What is kept of a transaction. It takes no memory.
    pub fn get(&self, txn: TxnId) -> Option<&TxnRecord>
        ensures { option_copied result ≡ kept_at self.now.map.entries txn }
    {
        self.map.get(&txn)
    }

    /// Takes in one more record of the log. If memory runs out, all is as before.
    pub fn apply(&mut self, logged: &LogRecord) -> Result<(), Memory>
        ensures ok { OnOk result ((x : ℕ) → kept_at self.new.map.entries x ≡ kept_after logged.now x (kept_at self.old.map.entries x)) }
        ensures memory { OnErr result ((x : ℕ) → kept_at self.new.map.entries x ≡ kept_at self.old.map.entries x) }
    {
        match logged {
            LogRecord::Begin { txn, priority, .. } => self.put(
                *txn,
                TxnRecord::Pending {
                    priority: *priority,
                },
            ),
            LogRecord::Commit { txn, at, tablets } => {
                let commit = commit_of(self.alloc, *at, tablets)?;
                self.put(*txn, TxnRecord::Committed(commit))
            }
            LogRecord::Abort { txn, by: Some(by) } => self.put(
                *txn,
                TxnRecord::Aborted { by: *by },
            ),
            LogRecord::Abort { txn, by: None } | LogRecord::Forget { txn } => {
                self.remove(*txn);
                Ok(())
            }
            _ => Ok(()),
        }
    }

    /// Takes in the record of an action, where there is one, and what stands in no log. If memory runs out, all is as
    /// before.
    pub fn take_in(&mut self, own: Option<&LogRecord>, mark: Mark) -> Result<(), Memory>
        ensures ok { OnOk result ((x : ℕ) → kept_at self.new.map.entries x ≡ marked mark x (kept_with (option_copied own.entry) x (kept_at self.old.map.entries x))) }
        ensures memory { OnErr result ((x : ℕ) → kept_at self.new.map.entries x ≡ kept_at self.old.map.entries x) }
    {
        let Some(own) = own else {
            self.mark(mark);
            return Ok(());
        };
        self.apply(own)?;
        self.mark(mark);
        Ok(())
    }

    /// Takes in what stands in no log. It takes no memory.
    pub fn mark(&mut self, mark: Mark)
        ensures { (x : ℕ) → kept_at self.new.map.entries x ≡ marked mark x (kept_at self.old.map.entries x) }
    {
        match mark {
            Mark::Nothing => {}
            Mark::Told(txn) => self.tell(txn),
            Mark::Applied { txn, tablet } => self.note(txn, tablet),
        }
    }

    fn tell(&mut self, txn: TxnId)
        ensures { (x : ℕ) → kept_at self.new.map.entries x ≡ (if nat_eq txn x then option_map told (kept_at self.old.map.entries x) else kept_at self.old.map.entries x) }
    {
        let Some(kept) = self.map.get_mut(&txn) else {
            return;
        };
        kept.tell();
    }

    fn note(&mut self, txn: TxnId, tablet: u32)
        ensures { (x : ℕ) → kept_at self.new.map.entries x ≡ (if nat_eq txn x then option_map (without tablet) (kept_at self.old.map.entries x) else kept_at self.old.map.entries x) }
    {
        let Some(kept) = self.map.get_mut(&txn) else {
            return;
        };
        kept.note(tablet);
    }

    fn remove(&mut self, txn: TxnId)
        ensures { (x : ℕ) → kept_at self.new.map.entries x ≡ (if nat_eq txn x then None else kept_at self.old.map.entries x) }
    {
        self.map.remove(&txn);
    }

    fn put(&mut self, txn: TxnId, kept: TxnRecord) -> Result<(), Memory>
        ensures ok { OnOk result ((x : ℕ) → kept_at self.new.map.entries x ≡ (if nat_eq txn x then Some kept else kept_at self.old.map.entries x)) }
        ensures memory { OnErr result ((x : ℕ) → kept_at self.new.map.entries x ≡ kept_at self.old.map.entries x) }
    {
        match self.map.insert(txn, kept) {
            Ok(_) => Ok(()),
            Err(_) => Err(AllocError),
        }
    }
}

fn commit_of(alloc: Global, at: HybridTime, tablets: &Tablets) -> Result<Commit, Memory>
    ensures { IfOk result (λ commit. commit ≡ (record { at = at; waits = tablets.now; stays = names_none tablets.now; sure = false })) }
{
    let tablets = tablets.try_copy(alloc)?.into_items();
    Ok(Commit {
        at,
        stays: tablets.is_empty(),
        waits: Waits::of(tablets),
        sure: false,
    })
}
