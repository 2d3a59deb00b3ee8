//! A document key.
ghost use Rattle.std.specs.Prelude.{◌≡◌};
ghost use Rattle.std.specs.List.{list_all};
ghost use Rattle.doc_key.specs.Spelling.{is_column, has_spelling};

use doc_value::Primitive;
use docdb_base::Seq;

/// The key of a document: one to eight columns, of which each is an integer, a text, false or true.
#[derive(Debug, Drop)]
pub struct DocKey {
    /// The columns by whose hash the document is placed.
    pub hashed: Seq<Primitive>,
    /// The columns by which documents of one hash are ordered.
    pub range: Seq<Primitive>,
}

/// The most columns that a key may have.
pub(crate) const MOST_COLUMNS: usize = 8;

fn is_column(value: &Primitive) -> bool
    ensures { result ≡ is_column value.now }
{
    match value {
        Primitive::Column(_) => false,
        _ => value.has_spelling(),
    }
}

fn are_columns(group: &[Primitive]) -> bool
    ensures { result ≡ list_all is_column group.now }
{
    group.iter().all(is_column)
}

impl DocKey {
    /// Whether the key has a spelling: whether it has one to eight columns, none of which is a column number or a
    /// text of more than 256 bytes.
    pub fn has_spelling(&self) -> bool
        ensures { result ≡ has_spelling self.now }
    {
        let (hashed, range) = (self.hashed.items(), self.range.items());
        are_columns(hashed)
            && are_columns(range)
            && hashed.len() <= MOST_COLUMNS
            && range.len() <= MOST_COLUMNS
            && (1..=MOST_COLUMNS).contains(&(hashed.len() + range.len()))
    }
}
