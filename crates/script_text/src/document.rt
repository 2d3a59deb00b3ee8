//! A document key and subkeys.
ghost use Rattle.std.specs.Prelude.{◌≡◌};
ghost use Rattle.std.specs.List.{list_all};
ghost use Rattle.doc_value.specs.Spelling.{has_spelling};
ghost use Rattle.script_text.specs.Terms.{is_document};

use doc_key::DocKey;
use doc_value::Primitive;
use docdb_base::Seq;

/// A document key, and up to four subkeys.
#[derive(Debug, Drop)]
pub struct Document {
    pub key: DocKey,
    pub subkeys: Seq<Primitive>,
}

/// The most subkeys of a path.
const MOST_SUBKEYS: usize = 4;

fn have_spellings(values: &[Primitive]) -> bool
    ensures { result ≡ list_all has_spelling values.now }
{
    values.iter().all(Primitive::has_spelling)
}

impl Document {
    /// Whether the key and each subkey have a spelling, and there are no more subkeys than may be.
    pub fn is_document(&self) -> bool
        ensures { result ≡ is_document self.now }
    {
        self.key.has_spelling()
            && have_spellings(self.subkeys.items())
            && self.subkeys.items().len() <= MOST_SUBKEYS
    }
}
