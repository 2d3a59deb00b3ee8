//! The newest words on the prefixes of the path where a walk is.
ghost use Rattle.std.specs.Prelude.{◌≡◌, ℕ, ◌-◌, ◌<◌, ◌≤◌, ◌++◌, ◌∷◌, [], Some, None, suc, length, take, option_map, IfOk, OnOk, slice_index_or};
ghost use Rattle.doc_path.specs.Path.{Parts};
ghost use Rattle.txn_types.specs.Writes.{set_at};
ghost use Rattle.regular_records.specs.Records.{write_of};
ghost use Rattle.regular_records.specs.Store.{VersionStore as Kept, newest_upto, path_versions_at};
ghost use Rattle.regular_records.specs.PrefixWords.{AreFirstWords, AreWords, IsOwnWord};

use crate::store::{PathVersions, VersionStore};
use crate::word::{Word, first_until, later, word_at, word_value};
use doc_path::PathPart;
use docdb_base::Memory;
use hybrid_time::HybridTime;
use std::alloc::Global;
use txn_types::Bytes;

/// The newest word up to a time on each prefix of a path, the shortest first. A walk over paths in order goes from one path
/// to the next, and looks up only prefixes that the two do not share.
#[derive(Drop)]
pub struct PrefixWords<'a> {
    path: &'a [PathPart],
    words: Vec<Option<Word<'a>>>,
}

impl<'a> PrefixWords<'a> {
    /// The words of the path of no parts: none.
    pub fn new(alloc: Global) -> PrefixWords<'a>
        ensures { (t : ℕ) (store : Kept) → AreWords t store result }
    {
        PrefixWords {
            path: &[],
            words: Vec::new(alloc),
        }
    }

    /// Goes to a path that has these versions. If memory runs out, the words are of no use.
    pub fn go_to(
        &mut self,
        paths: &'a VersionStore,
        path: &'a [PathPart],
        versions: &'a PathVersions,
        t: HybridTime,
    ) -> Result<(), Memory>
        requires some { 1 ≤ length path.now }
        requires there { path_versions_at path.now paths.now ≡ Some versions.now }
        requires words { AreWords t paths.now self.old }
        ensures words { OnOk result (AreWords t paths.now self.new) }
        ensures path { OnOk result (self.new.path.now ≡ path.now) }
    {
        let above = path.len() - 1;
        self.words.truncate(shared(self.path, &path[..above]));
        self.path = path;
        for i in self.words.len()..above {
            push_word(&mut self.words, word_at(paths, &path[..i + 1], t))?;
        }
        push_word(&mut self.words, first_until(versions, path.len(), t))
    }

    /// The value at the path.
    pub fn value(&self, alloc: Global) -> Result<Option<Bytes>, Memory>
        ensures { (t : ℕ) (store : Kept) → AreWords t store self.now → IfOk result (λ found. found ≡ set_at self.now.path.now (option_map write_of (newest_upto t self.now.path.now store (length self.now.path.now)))) }
    {
        match last_word(&self.words) {
            Some(word) => word_value(alloc, &word, self.words.len()),
            None => Ok(None),
        }
    }
}

// How many parts at the front the two share, or fewer.
fn shared(path: &[PathPart], other: &[PathPart]) -> usize
    ensures parts { result ≤ length path.now }
    ensures others { result ≤ length other.now }
    ensures same { take result path.now ≡ take result other.now }
{
    let most = path.len().min(other.len());
    for i in 0..most {
        if path[i] != other[i] {
            return i;
        }
    }
    most
}

fn last_word<'a>(words: &[Option<Word<'a>>]) -> Option<Word<'a>>
    ensures { result ≡ slice_index_or words.now (length words.now - 1) None }
{
    match words.last() {
        Some(word) => *word,
        None => None,
    }
}

// Puts the newer of the last word and of this one at the end.
fn push_word<'a>(words: &mut Vec<Option<Word<'a>>>, own: Option<Word<'a>>) -> Result<(), Memory>
    ensures words { (t : ℕ) (p : Parts) (store : Kept) → length words.old.items < length p → AreFirstWords t p store words.old.items → IsOwnWord t p store (length words.old.items) own.entry → OnOk result (AreFirstWords t p store words.new.items) }
    ensures len { OnOk result (length words.new.items ≡ suc (length words.old.items)) }
{
    let above = last_word(words);
    words.push(later(above, own))?;
    Ok(())
}
