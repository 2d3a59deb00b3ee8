//! An entry with its stamp, and the message that it used.
use crate::message::Message;
use txn_data::Entry;

/// An entry with its stamp, and the message that it used. No value of this type is made: contracts speak of it.
pub struct StampedEntry {
    pub stamp: u64,
    pub entry: Entry,
    pub used: Option<Message>,
}
