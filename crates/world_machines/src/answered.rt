//! What a machine answered.
use txn_types::{Entry, Reply};

/// What a machine answered: the reply, and the entry that records it.
#[derive(Debug, Drop)]
pub struct Answered {
    pub reply: Reply,
    pub entry: Entry,
}
