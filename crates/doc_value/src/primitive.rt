//! A value.
ghost use Rattle.std.specs.Prelude.{◌≡◌};
ghost use Rattle.doc_value.specs.Spelling.{has_spelling};

use docdb_base::Seq;

/// A value, or a part of a key.
#[derive(Debug, Drop)]
pub enum Primitive {
    /// A signed integer.
    Int(i64),
    /// Up to 256 bytes of any values.
    Text(Seq<u8>),
    False,
    True,
    /// The number of a column.
    Column(u32),
}

/// The most bytes that a text may have.
pub(crate) const LONGEST_TEXT: usize = 256;

impl Primitive {
    /// Whether the value has a spelling: whether it is no text of more than 256 bytes.
    pub fn has_spelling(&self) -> bool
        ensures { result ≡ has_spelling self.now }
    {
        match self {
            Primitive::Text(text) => text.items().len() <= LONGEST_TEXT,
            _ => true,
        }
    }
}
