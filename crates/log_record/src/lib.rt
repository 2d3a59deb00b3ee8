//! The records of a log as bytes.
//!
//! The contract is exact: `encode` appends the spelling of `specs/Spelling.antt`, and `encoded_len` is its length; `decode` answers the record that its
//! bytes spell, or the first fault that reading them from the left meets, by `specs/Reading.antt`. Spelling and reading
//! are tied by the laws here: what is spelled is read, what is read is spelled so, no spelling begins another, a refusal
//! is met before all that follows it, and no spelling has more than 393,280 bytes.
#![tactic(auto)]

mod encode;
mod encoded_len;
mod fields;
mod kind;
mod laws;
mod log_record;
mod read;
mod record_refusal;

pub use laws::{
    a_front_foretells, no_spelling_begins_another, spellings_are_short, what_is_read_is_spelled,
    what_is_spelled_is_read,
};
pub use log_record::LogRecord;
pub use read::decode;
pub use record_refusal::RecordRefusal;
