//! The first fates of transactions.
ghost use Rattle.std.specs.Prelude.{◌≡◌, ℕ, ◌≤◌, true, Some, slice_get};
ghost use Rattle.txn_types.specs.Tablet.{first_fate as fate_in, commit_time};
ghost use Rattle.conflict_matrix.specs.Firsts.{not_below as not_below_in, own_fate, FatesRise};

use hybrid_time::HybridTime;
use txn_types::{Fate, FateOf, TxnId};

/// Tells the first fate of one transaction after another. If neither the ids that are asked for nor those of the fates fall,
/// all questions together take one walk over the fates, and else each takes a search from the front. It takes no memory.
#[derive(Debug, Drop)]
pub struct FirstFates<'a> {
    /// The fates that are left.
    rest: &'a [FateOf],
    /// Whether it walks.
    walks: bool,
    ghost in_order: { walks ≡ true → FatesRise rest.now },
}

impl<'a> FirstFates<'a> {
    /// The first of these fates; `rising` says that the ids that are asked for do not fall.
    pub fn of(fates: &'a [FateOf], rising: bool) -> FirstFates<'a>
        ensures rest { result.rest.now ≡ fates.now }
        ensures rising { result.walks ≡ true → rising ≡ true }
        ensures in_order { result.walks ≡ true → FatesRise fates.now }
    {
        let walks = rising && rise(fates);
        FirstFates { rest: fates, walks }
    }

    /// The first fate of a transaction. Where it walks, no transaction below it can be asked for from then on.
    pub fn fate_of(&mut self, txn: TxnId) -> Option<Fate>
        ensures told { result ≡ fate_in self.old.rest.now txn }
        ensures walks { self.new.walks ≡ self.old.walks }
        ensures later { (x : ℕ) → (self.old.walks ≡ true → txn ≤ x) → fate_in self.new.rest.now x ≡ fate_in self.old.rest.now x }
    {
        if !self.walks {
            return first_fate(self.rest, txn);
        }
        self.rest = not_below(self.rest, txn);
        own_fate(self.rest, txn)
    }

    /// The commit time that the first fate of a transaction names. Where it walks, no transaction below it can be asked for
    /// from then on.
    pub fn time_of(&mut self, txn: TxnId) -> Option<HybridTime>
        ensures told { result ≡ commit_time (fate_in self.old.rest.now txn) }
        ensures walks { self.new.walks ≡ self.old.walks }
        ensures later { (x : ℕ) → (self.old.walks ≡ true → txn ≤ x) → fate_in self.new.rest.now x ≡ fate_in self.old.rest.now x }
    {
        match self.fate_of(txn) {
            Some(fate) => commit_time(fate),
            None => None,
        }
    }
}

/// The commit time that a fate names.
pub fn commit_time(fate: Fate) -> Option<HybridTime>
    ensures { result ≡ commit_time (Some fate) }
{
    match fate {
        Fate::Committed { at } => Some(at),
        _ => None,
    }
}

// Whether the ids of these fates do not fall.
fn rise(fates: &[FateOf]) -> bool
    ensures { result ≡ true → FatesRise fates.now }
{
    fates.is_sorted_by_key(|of| of.txn)
}

// The first fate of a transaction, by a search from the front.
fn first_fate(fates: &[FateOf], txn: TxnId) -> Option<Fate>
    ensures { result ≡ fate_in fates.now txn }
{
    for of in fates {
        if of.txn == txn {
            return Some(of.fate);
        }
    }
    None
}

// These fates from the first on that is not of a transaction below this one.
fn not_below(fates: &[FateOf], txn: TxnId) -> &[FateOf]
    ensures { result.now ≡ not_below_in txn fates.now }
{
    for (i, of) in fates.iter().enumerate() {
        if of.txn >= txn {
            return &fates[i..];
        }
    }
    &fates[fates.len()..]
}

// The fate that stands first, if it is that of the transaction.
fn own_fate(fates: &[FateOf], txn: TxnId) -> Option<Fate>
    ensures { result ≡ own_fate txn (slice_get fates.now 0) }
{
    match fates.first() {
        Some(of) if of.txn == txn => Some(of.fate),
        _ => None,
    }
}
