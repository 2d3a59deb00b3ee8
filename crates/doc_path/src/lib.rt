//! Paths of a document store: an encoded document key and up to four encoded subkeys.
//!
//! The contract is exact: prefix, relation and order of paths are those of `specs/Path.antt`. What holds of these is
//! proved in `laws`: a prefix is a beginning, relation is symmetric, the order is total.
#![tactic(auto)]

pub mod laws;
mod path;
mod path_part;
mod path_refusal;
#[cfg(test)]
mod tests;

pub use path::Path;
pub use path_part::PathPart;
pub use path_refusal::PathRefusal;
