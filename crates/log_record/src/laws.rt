//! What holds of spelling and reading together.
ghost use Rattle.std.specs.Prelude.{◌≡◌, ◌≤◌, ◌++◌, ◌∷◌, ℕ, length, List, Ok, IsTrue};
ghost use Rattle.log_record.specs.declared.log_record.LogRecord.{LogRecord};
ghost use Rattle.log_record.specs.Spelling.{spelling, has_spelling, IsInRange};
ghost use Rattle.log_record.specs.Reading.{record_at, record_of, Foretells, IsBytes};

/// What is spelled is read, whatever follows it.
pub fn what_is_spelled_is_read()
    ensures { (whole : ℕ) (r : LogRecord) (rest : List ℕ) → IsInRange r → IsTrue (has_spelling r)
        → record_at whole (spelling r ++ rest) ≡ Ok (r, rest) }
{}

/// What is read is spelled so.
pub fn what_is_read_is_spelled()
    ensures { (whole : ℕ) (bytes : List ℕ) (r : LogRecord) (rest : List ℕ) → IsBytes bytes → record_at whole bytes ≡ Ok (r, rest)
        → IsInRange r × IsTrue (has_spelling r) × (bytes ≡ spelling r ++ rest) }
{}

/// No spelling begins another: where two are followed by bytes that make the whole the same, they are one.
pub fn no_spelling_begins_another()
    ensures { (p q : LogRecord) (x y : List ℕ) → IsInRange p → IsInRange q → IsTrue (has_spelling p) → IsTrue (has_spelling q)
        → spelling p ++ x ≡ spelling q ++ y → (p ≡ q) × (x ≡ y) }
{}

/// A refusal is the first from the left: the answer to the bytes up to there is the answer to all.
pub fn a_front_foretells()
    ensures { (front : List ℕ) (b : ℕ) (more : List ℕ) → Foretells (length front) (record_of front) (record_of (front ++ b ∷ more)) }
{}

/// A spelling has at most 393,280 bytes: those of a write with five parts and a value, each of 65,536 bytes.
pub fn spellings_are_short()
    ensures { (r : LogRecord) → IsTrue (has_spelling r) → length (spelling r) ≤ 393280 }
{}
