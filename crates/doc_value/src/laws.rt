//! What holds of spelling, reading and order together.
ghost use Rattle.std.specs.Prelude.{◌≡◌, ◌++◌, ◌∷◌, ℕ, length, List, Ok, IsTrue};
ghost use Rattle.std.specs.Cmp.Lexicographic.{slice_cmp};
ghost use Rattle.std.specs.Ordering.{nat_cmp};
ghost use Rattle.doc_value.specs.declared.primitive.Primitive.{Primitive};
ghost use Rattle.doc_value.specs.Order.{value_order};
ghost use Rattle.doc_value.specs.Spelling.{spelling, has_spelling, IsInRange};
ghost use Rattle.doc_value.specs.Reading.{value_at, value_of, Foretells, IsBytes};

/// What is spelled is read, whatever follows it.
pub fn what_is_spelled_is_read()
    ensures { (whole : ℕ) (value : Primitive) (rest : List ℕ) → IsInRange value → IsTrue (has_spelling value)
        → value_at whole (spelling value ++ rest) ≡ Ok (value, rest) }
{}

/// What is read is spelled so.
pub fn what_is_read_is_spelled()
    ensures { (whole : ℕ) (bytes : List ℕ) (value : Primitive) (rest : List ℕ) → IsBytes bytes → value_at whole bytes ≡ Ok (value, rest)
        → IsInRange value × IsTrue (has_spelling value) × (bytes ≡ spelling value ++ rest) }
{}

/// No spelling begins another: where two are followed by bytes that make the whole the same, they are one.
pub fn no_spelling_begins_another()
    ensures { (p q : Primitive) (x y : List ℕ) → IsInRange p → IsInRange q → IsTrue (has_spelling p) → IsTrue (has_spelling q)
        → spelling p ++ x ≡ spelling q ++ y → (p ≡ q) × (x ≡ y) }
{}

/// A refusal is the first from the left: the answer to the bytes up to there is the answer to all.
pub fn a_front_foretells()
    ensures { (front : List ℕ) (b : ℕ) (more : List ℕ) → Foretells (length front) (value_of front) (value_of (front ++ b ∷ more)) }
{}

/// The order of spellings as bytes is the order of values.
pub fn bytes_are_in_order()
    ensures { (p q : Primitive) → IsInRange p → IsInRange q → slice_cmp nat_cmp (spelling p) (spelling q) ≡ value_order p q }
{}
