//! The message that an entry makes.
use txn_data::Entry;

/// The message that an entry makes. No value of this type is made: contracts speak of it.
pub struct Message {
    /// The stamp of the entry.
    pub stamp: u64,
    /// The number of the actor that made the entry.
    pub maker: u64,
    pub entry: Entry,
    /// The stamp of the message that the entry used.
    pub answers: Option<u64>,
}
