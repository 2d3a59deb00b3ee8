//! Document keys as bytes whose order is the order of the store, and their hash.
//!
//! A key has hashed columns, by whose hash a document is placed, and range columns. The contract is exact: `encode`
//! appends the spelling of `specs/Spelling.antt`; `decode` answers the key that its bytes spell, or the first fault
//! that reading them from the left meets, by `specs/Reading.antt`; the hash is that of `specs/Hash.antt`, and the
//! text that of `specs/Showing.antt`. Spelling, reading and order are tied by the laws here: what is spelled is read,
//! what is read is spelled so, no spelling begins another, a refusal is met before all that follows it, and the order of
//! spellings as bytes is the order of keys, `specs/Order.antt`.
#![tactic(auto)]

mod doc_key;
mod encode;
mod hash;
mod laws;
mod read;
mod show;
mod tag;

pub use doc_key::DocKey;
pub use doc_value::{KeyRefusal, Primitive};
pub use hash::hash_of;
pub use laws::{
    a_front_foretells, bytes_are_in_order, no_spelling_begins_another, what_is_read_is_spelled,
    what_is_spelled_is_read,
};
pub use read::{decode, read_key};
