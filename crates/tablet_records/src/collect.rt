//! What a read collects.
ghost use Rattle.std.specs.Prelude.{◌≡◌, ℕ, List, not, filter, filter_map, IfOk};
ghost use Rattle.std.specs.List.{All, AllByRecursion};
ghost use Rattle.std.specs.BTreeMap.{get};
ghost use Rattle.std.specs.BTreeSet.{contains, IsOrdered};
ghost use Rattle.std.specs.Ordering.{nat_cmp};
ghost use Rattle.txn_data.specs.declared.version.Version.{Version as Seen};
ghost use Rattle.txn_types.specs.Tablet.{Intent, considered, collected, met_under, is_own};
ghost use Rattle.intent_records.specs.Holds.{Holds};
ghost use Rattle.tablet_records.specs.Committed.{committed_writes, on_related, version_under, is_committed_other};
ghost use Rattle.tablet_records.specs.Keeps.{Keeps, IsRead};

use crate::considered::Considered;
use crate::fates::{commit_time_in, first_fates};
use crate::met::met_among;
use crate::tablet_records::TabletRecords;
use docdb_base::Memory;
use hybrid_time::HybridTime;
use regular_records::Versions;
use regular_records::laws::rows_of_added;
use std::alloc::Global;
use std::collections::{BTreeMap, BTreeSet};
use txn_types::{Fate, FateOf, Fates, Paths, Provisional, ReadKind, Reply, TxnId, Version, Window};

impl<V: Versions + Drop> TabletRecords<V> {
    /// Collect: what a read of `paths` at `t` meets in its window, or else its rows. It considers the versions, and the
    /// provisional writes of transactions other than `own` whose first fate is Committed, as versions at that time.
    pub fn collect(
        &self,
        own: Option<TxnId>,
        kind: ReadKind,
        paths: &Paths,
        t: HybridTime,
        window: Option<Window>,
        fates: &Fates,
    ) -> Result<Reply, Memory>
        requires { All V.fits paths.now }
        ensures reply { (ps : List Intent) (vs : List Seen) → Keeps V.holds self.now ps vs
            → IfOk result (λ reply. reply ≡ collected kind paths.now t (considered own fates.now ps vs) (met_under window t paths.now (considered own fates.now ps vs))) }
        ensures kind { IfOk result (λ reply. IsRead reply) }
    {
        rows_of_added();
        let list = self.committed(own, paths, fates.items())?;
        match met_among(self.alloc, &self.versions, &list, paths, t, window)? {
            Some(met) => Ok(Reply::Met {
                at: met.at,
                path: met.path,
            }),
            None => {
                let all = Considered::of(self.alloc, &self.versions, list)?;
                Ok(Reply::Collected(all.rows(kind, paths, t)?))
            }
        }
    }

    // The provisional writes of transactions other than `own` whose first fate is Committed, as versions at that time: those
    // on paths related to one of `paths`.
    fn committed(
        &self,
        own: Option<TxnId>,
        paths: &Paths,
        fates: &[FateOf],
    ) -> Result<Vec<Version>, Memory>
        ensures writes { (ps : List Intent) → Holds self.now.intents ps → IfOk result (λ list. list.items ≡ filter (on_related paths.now) (committed_writes own fates.now ps)) }
        ensures fit { IfOk result (λ list. AllByRecursion (λ (v : Seen). V.fits v.path) list.items) }
    {
        let firsts = first_fates(self.alloc, fates)?;
        let txns = others_committed(self.alloc, own, &firsts)?;
        let writes = self.intents.related_of(paths, &txns)?;
        committed_versions(self.alloc, &firsts, writes)
    }
}

// Those of these writes whose transactions are committed, as versions at their commit times.
fn committed_versions(
    alloc: Global,
    firsts: &BTreeMap<TxnId, Fate>,
    writes: Vec<Provisional>,
) -> Result<Vec<Version>, Memory>
    ensures { IfOk result (λ list. list.items ≡ filter_map (version_under (get nat_cmp firsts.now)) writes.items) }
{
    let mut list = Vec::new(alloc);
    for write in writes {
        if let Some(at) = commit_time_in(firsts, write.txn) {
            list.push(Version {
                path: write.path,
                at,
                wrote: write.wrote,
                number: write.number,
                op: write.op,
            })?;
        }
    }
    Ok(list)
}

// The transactions other than `own` whose first fate is Committed.
fn others_committed(
    alloc: Global,
    own: Option<TxnId>,
    firsts: &BTreeMap<TxnId, Fate>,
) -> Result<BTreeSet<TxnId>, Memory>
    ensures committed { IfOk result (λ txns. (x : ℕ) → contains nat_cmp txns x ≡ is_committed_other own (get nat_cmp firsts.now) x) }
    ensures ordered { IfOk result (λ txns. IsOrdered nat_cmp txns) }
{
    let mut txns = BTreeSet::new(alloc);
    for txn in firsts.keys() {
        if is_committed_other(&own, firsts, *txn) {
            txns.insert(*txn)?;
        }
    }
    Ok(txns)
}

fn is_committed_other(own: &Option<TxnId>, firsts: &BTreeMap<TxnId, Fate>, txn: TxnId) -> bool
    ensures { result ≡ is_committed_other own.now (get nat_cmp firsts.now) txn }
{
    is_other(own, txn) && commit_time_in(firsts, txn).is_some()
}

fn is_other(own: &Option<TxnId>, txn: TxnId) -> bool
    ensures { result ≡ not (is_own own.now txn) }
{
    match own {
        None => true,
        Some(own) => txn != *own,
    }
}
