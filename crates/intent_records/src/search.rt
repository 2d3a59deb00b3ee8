//! The search for records on related paths.
ghost use Rattle.std.specs.Prelude.{◌≡◌, ℕ, ◌≤◌, ◌||◌, length, OnOk};
ghost use Rattle.std.specs.Ordering.{nat_cmp};
ghost use Rattle.std.specs.BTreeSet.{contains};
ghost use Rattle.intent_records.specs.Search.{hit, between, near};

use crate::asked::Asked;
use crate::bounds::related_ranges;
use crate::intents::Intents;
use crate::path_range::PathRange;
use crate::record_key::RecordKey;
use doc_path::Path;
use docdb_base::Memory;
use std::collections::BTreeSet;
use std::ops::Bound;
use txn_types::TxnId;

impl Intents {
    // Adds the transactions with such a record on a path in a range. It goes from record to record. Where a second record of
    // a transaction comes at the path at which the first has settled it, it looks up what is behind all of that transaction
    // there.
    fn find_between(
        &self,
        range: &PathRange,
        asked: &Asked,
        found: &mut BTreeSet<TxnId>,
    ) -> Result<(), Memory>
        ensures { OnOk result ((x : ℕ) → contains nat_cmp found.new x ≡ (contains nat_cmp found.old x || hit (between range.now.first range.now.end) asked.now.own asked.now.until x self.now.records.entries)) }
    {
        let first = RecordKey::first_at(self.alloc, &range.first)?;
        let end = RecordKey::first_at(self.alloc, &range.end)?;
        let mut records = self
            .records
            .range((Bound::Included(&first), Bound::Excluded(&end)));
        let mut settled: Option<&RecordKey> = None;
        while let Some((key, record)) = records.next() {
            if let Some(before) = settled
                && key.is_alike(before)
            {
                let last = key.last_alike(self.alloc)?;
                records = self
                    .records
                    .range((Bound::Excluded(&last), Bound::Excluded(&end)));
            } else if asked.settles(key.txn, record.wrote) {
                asked.add_to(found, key.txn)?;
                settled = Some(key);
            }
        }
        Ok(())
    }

    // Adds the transactions with such a record on a path related to `path`: one that it lies beneath, itself, or one that
    // lies beneath it.
    pub(crate) fn find_related(
        &self,
        path: &Path,
        asked: &Asked,
        found: &mut BTreeSet<TxnId>,
    ) -> Result<(), Memory>
        ensures found { OnOk result ((x : ℕ) → contains nat_cmp found.new x ≡ (contains nat_cmp found.old x || hit (near path.now) asked.now.own asked.now.until x self.now.records.entries)) }
        ensures parts { 1 ≤ length path.now }
    {
        for range in &related_ranges(self.alloc, path)? {
            self.find_between(range, asked, found)?;
        }
        Ok(())
    }
}
