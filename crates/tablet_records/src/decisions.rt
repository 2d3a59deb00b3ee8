//! What the table decides by the contents. Nothing is changed.
ghost use Rattle.std.specs.Prelude.{◌≡◌, ℕ, List, Some, None, IfOk};
ghost use Rattle.txn_data.specs.declared.version.Version.{Version as Seen};
ghost use Rattle.txn_data.specs.declared.reply.Reply.TheVariants.{Listed};
ghost use Rattle.txn_types.specs.Tablet.{Intent, founds, others_on, listed, has_any, conflict, greatest_above, related_commits};
ghost use Rattle.conflict_matrix.specs.Decide.{decision};
ghost use Rattle.tablet_records.specs.Keeps.{Keeps, other_in};

use crate::tablet_records::TabletRecords;
use conflict_matrix::laws::{least_open_is_conflict, overlap_is_greatest_commit};
use conflict_matrix::{WriteDecision, decide};
use doc_path::Path;
use docdb_base::Memory;
use hybrid_time::HybridTime;
use regular_records::Versions;
use txn_types::{Fates, Founds, Paths, TxnId};

impl<V: Versions + Drop> TabletRecords<V> {
    /// ListWrite: the other transactions that a write of `txn` at `path` may have to wait for.
    pub fn list_write(&self, txn: TxnId, path: &Path) -> Result<Founds, Memory>
        ensures { (ps : List Intent) (vs : List Seen) → Keeps V.holds self.now ps vs → IfOk result (λ others. others ≡ founds ps (others_on txn path.now ps)) }
    {
        self.intents.conflicting(path, txn)
    }

    /// Write: whether a write of `txn` at `path`, whose read time is `read`, conflicts or overlaps.
    pub fn decide_write(
        &self,
        txn: TxnId,
        path: &Path,
        read: HybridTime,
        fates: &Fates,
    ) -> Result<WriteDecision, Memory>
        requires { V.fits path.now }
        ensures { (ps : List Intent) (vs : List Seen) → Keeps V.holds self.now ps vs → IfOk result (λ decided. decided ≡ decision (conflict txn path.now fates.now ps) (greatest_above read (related_commits txn path.now fates.now ps vs))) }
    {
        least_open_is_conflict();
        overlap_is_greatest_commit();
        let others = self.intents.conflicting(path, txn)?;
        let newest = self.versions.newest_related_above(path, read);
        Ok(decide(&others, fates, Some(read), newest))
    }

    /// Single: the transaction with which a write of `txn` alone at `path` conflicts, where there is one. It never overlaps.
    pub fn decide_single(
        &self,
        txn: TxnId,
        path: &Path,
        fates: &Fates,
    ) -> Result<Option<TxnId>, Memory>
        ensures { (ps : List Intent) (vs : List Seen) → Keeps V.holds self.now ps vs → IfOk result (λ other. other ≡ conflict txn path.now fates.now ps) }
    {
        least_open_is_conflict();
        let others = self.intents.conflicting(path, txn)?;
        Ok(other_in(decide(&others, fates, None, None)))
    }

    /// ListRead: the transactions other than `own` that a read of `paths` at `t` may have to ask about, where `limit` is its
    /// local limit.
    pub fn list_read(
        &self,
        own: Option<TxnId>,
        paths: &Paths,
        t: HybridTime,
        limit: HybridTime,
    ) -> Result<Founds, Memory>
        ensures { (ps : List Intent) (vs : List Seen) → Keeps V.holds self.now ps vs → IfOk result (λ others. Listed limit others ≡ listed own paths.now t limit ps) }
    {
        let others = self.intents.related_until(paths, own, t.max(limit))?;
        Ok(others)
    }

    /// ListIntents: all transactions with provisional writes.
    pub fn list_intents(&self) -> Result<Founds, Memory>
        ensures { (ps : List Intent) (vs : List Seen) → Keeps V.holds self.now ps vs → IfOk result (λ all. all ≡ founds ps ps) }
    {
        self.intents.txns()
    }

    /// Apply and Clean: whether a transaction has provisional writes. It takes no memory.
    pub fn has_any(&self, txn: TxnId) -> bool
        ensures { (ps : List Intent) (vs : List Seen) → Keeps V.holds self.now ps vs → result ≡ has_any txn ps }
    {
        self.intents.has_any(txn)
    }
}

// The transaction with which a write conflicts.
fn other_in(decision: WriteDecision) -> Option<TxnId>
    ensures { result ≡ other_in decision }
{
    match decision {
        WriteDecision::Conflict { other } => Some(other),
        _ => None,
    }
}
