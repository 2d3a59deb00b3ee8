//! Provisional records whose paths fit the versions of their tablet.
ghost use Rattle.std.specs.Prelude.{◌≡◌, ℕ, List, [], ◌∷◌, ◌++◌, not, map, filter, is_some, IfOk, OnOk, OnErr};
ghost use Rattle.std.specs.List.{AllByRecursion};
ghost use Rattle.txn_types.specs.Tablet.{Intent, is_of, founds, others_on, has_any};
ghost use Rattle.intent_records.specs.Holds.{Holds, own, provisional_of};
ghost use Rattle.intent_records.specs.Search.{others_until};
ghost use Rattle.intent_records.specs.Related.{related_writes};
ghost use Rattle.tablet_records.specs.Fitting.{WriteFits};

use doc_path::Path;
use docdb_base::Memory;
use hybrid_time::HybridTime;
use intent_records::Intents;
use regular_records::Versions;
use std::alloc::Global;
use std::collections::BTreeSet;
use std::marker::{Model, PhantomData};
use txn_types::{Founds, Meta, Op, Paths, Provisional, TxnId};

/// Provisional records whose paths fit the versions of their tablet, so that they can become versions. Contracts see the
/// records.
#[derive(Drop)]
pub struct FittingIntents<V: Versions> {
    intents: Intents,
    kind: PhantomData<V>,
}

impl<V: Versions> Model for FittingIntents<V> {
    ghost use Rattle.intent_records.specs.declared.intents.Intents.{Intents as Records};
    ghost use Rattle.tablet_records.specs.Fitting.{StandFitting};
    ghost use Rattle.intent_records.specs.contracts.intents.Intents as kept;

    ghost Value = { Records };

    ghost coded = { kept.the_row.coded };

    ghost view = { λ s. s.intents };

    ghost invariant = { λ s. StandFitting V.fits s.intents };
}

impl<V: Versions> FittingIntents<V> {
    pub fn new(alloc: Global) -> FittingIntents<V>
        ensures { Holds result [] }
    {
        FittingIntents {
            intents: Intents::new(alloc),
            kind: PhantomData,
        }
    }

    /// Adds a write whose path fits.
    pub fn add(
        &mut self,
        meta: &Meta,
        number: u32,
        path: &Path,
        op: &Op,
        wrote: HybridTime,
    ) -> Result<(), Memory>
        requires { V.fits path.now }
        ensures ok { (ps : List Intent) → Holds self.old ps → OnOk result (Holds self.new (ps ++ (record { meta = meta.now; number = number; path = path.now; op = op.now; wrote = wrote }) ∷ [])) }
        ensures memory { (ps : List Intent) → Holds self.old ps → OnErr result (Holds self.new ps) }
    {
        self.intents.add(meta, number, path, op, wrote)
    }

    /// Copies of the writes of a transaction, whose paths fit.
    pub fn records_of(&self, txn: TxnId) -> Result<Vec<Provisional>, Memory>
        ensures records { (ps : List Intent) → Holds self.now ps → IfOk result (λ list. list.items ≡ map provisional_of (own txn ps)) }
        ensures fit { IfOk result (λ list. AllByRecursion (WriteFits V.fits) list.items) }
    {
        self.intents.records_of(txn)
    }

    /// Copies of the writes of these transactions on paths related to one of `paths`, whose paths fit.
    pub fn related_of(
        &self,
        paths: &Paths,
        txns: &BTreeSet<TxnId>,
    ) -> Result<Vec<Provisional>, Memory>
        ensures records { (ps : List Intent) → Holds self.now ps → IfOk result (λ list. list.items ≡ map provisional_of (related_writes paths.now txns.now.keys ps)) }
        ensures fit { IfOk result (λ list. AllByRecursion (WriteFits V.fits) list.items) }
    {
        self.intents.related_of(paths, txns)
    }

    pub fn drop_of(&mut self, txn: TxnId)
        ensures { (ps : List Intent) → Holds self.old ps → Holds self.new (filter (λ (p : Intent). not (is_of txn p)) ps) }
    {
        self.intents.drop_of(txn);
    }

    pub fn conflicting(&self, path: &Path, txn: TxnId) -> Result<Founds, Memory>
        ensures { (ps : List Intent) → Holds self.now ps → IfOk result (λ others. others ≡ founds ps (others_on txn path.now ps)) }
    {
        self.intents.conflicting(path, txn)
    }

    pub fn related_until(
        &self,
        paths: &Paths,
        own: Option<TxnId>,
        until: HybridTime,
    ) -> Result<Founds, Memory>
        ensures { (ps : List Intent) → Holds self.now ps → IfOk result (λ others. others ≡ founds ps (others_until own paths.now until ps)) }
    {
        self.intents.related_until(paths, own, until)
    }

    pub fn has_any(&self, txn: TxnId) -> bool
        ensures { (ps : List Intent) → Holds self.now ps → result ≡ has_any txn ps }
    {
        self.intents.meta(txn).is_some()
    }

    pub fn txns(&self) -> Result<Founds, Memory>
        ensures { (ps : List Intent) → Holds self.now ps → IfOk result (λ all. all ≡ founds ps ps) }
    {
        self.intents.txns()
    }
}
