//! What holds of spelling, reading, order and texts together.
ghost use Rattle.std.specs.Prelude.{◌≡◌, ◌++◌, ◌∷◌, ◌<◌, ◌↔◌, ◌⊎◌, ℕ, length, List, Ok, IsTrue, map};
ghost use Rattle.std.specs.List.{list_all, AllByRecursion};
ghost use Rattle.std.specs.declared.cmp.Ordering.TheVariants.{Less};
ghost use Rattle.doc_path.specs.Path.{byte_order, path_order};
ghost use Rattle.doc_value.specs.declared.primitive.Primitive.{Primitive};
ghost use Rattle.doc_value.specs.Reading.{Foretells, IsBytes};
ghost use Rattle.doc_value.specs.Spelling.{spelling as value_spelling, has_spelling as value_has_spelling, IsInRange as IsValueInRange};
ghost use Rattle.doc_key.specs.declared.doc_key.DocKey.{DocKey};
ghost use Rattle.doc_key.specs.Spelling.{spelling as key_spelling, has_spelling as key_has_spelling, IsInRange as IsKeyInRange};
ghost use Rattle.sub_doc_key.specs.declared.sub_doc_key.SubDocKey.{SubDocKey};
ghost use Rattle.sub_doc_key.specs.Spelling.{spelling, HasSpelling};
ghost use Rattle.sub_doc_key.specs.Reading.{versioned_at, versioned_of};
ghost use Rattle.sub_doc_key.specs.Order.{store_order, IsNewer};
ghost use Rattle.sub_doc_key.specs.Showing.{shown, shown_path};

/// What is spelled is read, whatever follows it.
pub fn what_is_spelled_is_read()
    ensures { (whole : ℕ) (key : SubDocKey) (rest : List ℕ) → HasSpelling key → versioned_at whole (spelling key ++ rest) ≡ Ok (key, rest) }
{}

/// What is read is spelled so.
pub fn what_is_read_is_spelled()
    ensures { (whole : ℕ) (bytes : List ℕ) (key : SubDocKey) (rest : List ℕ) → IsBytes bytes → versioned_at whole bytes ≡ Ok (key, rest)
        → HasSpelling key × (bytes ≡ spelling key ++ rest) }
{}

/// No spelling begins another: where two are followed by bytes that make the whole the same, they are one.
pub fn no_spelling_begins_another()
    ensures { (p q : SubDocKey) (x y : List ℕ) → HasSpelling p → HasSpelling q → spelling p ++ x ≡ spelling q ++ y → (p ≡ q) × (x ≡ y) }
{}

/// A refusal is the first from the left: the answer to the bytes up to there is the answer to all.
pub fn a_front_foretells()
    ensures { (front : List ℕ) (b : ℕ) (more : List ℕ) → Foretells (length front) (versioned_of front) (versioned_of (front ++ b ∷ more)) }
{}

/// The order of spellings as bytes is the order of the store.
pub fn bytes_are_in_order()
    ensures exact { (p q : SubDocKey) → HasSpelling p → HasSpelling q → byte_order (spelling p) (spelling q) ≡ store_order p q }
    // So the lesser in bytes has the lesser path, or the same path and is newer.
    ensures lesser { (p q : SubDocKey) → HasSpelling p → HasSpelling q
        → (byte_order (spelling p) (spelling q) ≡ Less) ↔ ((path_order p.path q.path ≡ Less) ⊎ ((p.path ≡ q.path) × IsNewer p q)) }
{}

/// The text of a path is that of the document key and the values which its parts spell.
pub fn a_path_shows_what_it_spells()
    ensures { (key : DocKey) (subkeys : List Primitive) → IsKeyInRange key → IsTrue (key_has_spelling key)
        → AllByRecursion IsValueInRange subkeys → IsTrue (list_all value_has_spelling subkeys)
        → shown_path (key_spelling key ∷ map value_spelling subkeys) ≡ shown key subkeys }
{}
