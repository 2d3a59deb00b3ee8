//! Values as bytes whose order is the order of the store.
//!
//! A value is an integer, a text, false, true or a column number. The contract is exact: `encode` appends the
//! spelling of `specs/Spelling.antt`; `decode` answers the value that its bytes spell, or the first fault that
//! reading them from the left meets, by `specs/Reading.antt`. Spelling, reading and order are tied by the laws here:
//! what is spelled is read, what is read is spelled so, no spelling begins another, a refusal is met before all that
//! follows it, and the order of spellings as bytes is the order of values, `specs/Order.antt`.
#![tactic(auto)]

mod encode;
mod key_refusal;
mod laws;
mod primitive;
mod read;
mod show;
pub mod tag;

pub use encode::above_least;
pub use key_refusal::KeyRefusal;
pub use laws::{
    a_front_foretells, bytes_are_in_order, no_spelling_begins_another, what_is_read_is_spelled,
    what_is_spelled_is_read,
};
pub use primitive::Primitive;
pub use read::{decode, read_u32, read_u64, read_value};
