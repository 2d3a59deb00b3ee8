//! What holds of spelling, reading and order together.
ghost use Rattle.std.specs.Prelude.{◌≡◌, ◌++◌, ◌∷◌, ℕ, length, List, Ok, IsTrue};
ghost use Rattle.std.specs.Cmp.Lexicographic.{slice_cmp};
ghost use Rattle.std.specs.Ordering.{nat_cmp};
ghost use Rattle.doc_value.specs.Reading.{Foretells, IsBytes};
ghost use Rattle.doc_key.specs.declared.doc_key.DocKey.{DocKey};
ghost use Rattle.doc_key.specs.Order.{key_order};
ghost use Rattle.doc_key.specs.Spelling.{spelling, has_spelling, IsInRange};
ghost use Rattle.doc_key.specs.Reading.{key_at, key_of};

/// What is spelled is read, whatever follows it.
pub fn what_is_spelled_is_read()
    ensures { (whole : ℕ) (key : DocKey) (rest : List ℕ) → IsInRange key → IsTrue (has_spelling key)
        → key_at whole (spelling key ++ rest) ≡ Ok (key, rest) }
{}

/// What is read is spelled so.
pub fn what_is_read_is_spelled()
    ensures { (whole : ℕ) (bytes : List ℕ) (key : DocKey) (rest : List ℕ) → IsBytes bytes → key_at whole bytes ≡ Ok (key, rest)
        → IsInRange key × IsTrue (has_spelling key) × (bytes ≡ spelling key ++ rest) }
{}

/// No spelling begins another: where two are followed by bytes that make the whole the same, they are one.
pub fn no_spelling_begins_another()
    ensures { (p q : DocKey) (x y : List ℕ) → IsInRange p → IsInRange q → IsTrue (has_spelling p) → IsTrue (has_spelling q)
        → spelling p ++ x ≡ spelling q ++ y → (p ≡ q) × (x ≡ y) }
{}

/// A refusal is the first from the left: the answer to the bytes up to there is the answer to all.
pub fn a_front_foretells()
    ensures { (front : List ℕ) (b : ℕ) (more : List ℕ) → Foretells (length front) (key_of front) (key_of (front ++ b ∷ more)) }
{}

/// The order of spellings as bytes is the order of keys.
pub fn bytes_are_in_order()
    ensures { (p q : DocKey) → IsInRange p → IsInRange q → IsTrue (has_spelling p) → IsTrue (has_spelling q)
        → slice_cmp nat_cmp (spelling p) (spelling q) ≡ key_order p q }
{}
