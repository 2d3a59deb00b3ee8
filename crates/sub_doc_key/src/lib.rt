//! Versioned keys as bytes whose order is the order of the store, and the text of paths.
//!
//! A versioned key is a path, and the commit time and the write number of a version of what stands there. The contract
//! is exact: `encode` appends the spelling of `specs/Spelling.antt`; `decode` answers the key that its bytes spell, or
//! the first fault that reading them from the left meets, by `specs/Reading.antt`; the text of a path is that of
//! `specs/Showing.antt`. Spelling, reading and order are tied by the laws here: what is spelled is read, what is read
//! is spelled so, no spelling begins another, a refusal is met before all that follows it, and of two spellings the
//! lesser in bytes is that of the key that comes first in the order of the store, `specs/Order.antt`.
#![tactic(auto)]

mod laws;
mod read;
mod show;
mod sub_doc_key;
mod tag;
mod write;

pub use doc_value::KeyRefusal;
pub use laws::{
    a_front_foretells, a_path_shows_what_it_spells, bytes_are_in_order, no_spelling_begins_another,
    what_is_read_is_spelled, what_is_spelled_is_read,
};
pub use read::decode;
pub use show::path_text;
pub use sub_doc_key::SubDocKey;
pub use write::encode;
