//! One step of a mover.
use crate::moved::Moved;
use txn_types::Entry;

/// One step of a mover: the entry that it makes, and what it does besides.
#[derive(Debug, Drop)]
pub struct Step {
    pub entry: Entry,
    pub moved: Moved,
}
