//! How many entries an actor had made.

/// How many entries an actor had made. No value of this type is made: contracts speak of it.
pub struct EntryCount {
    pub actor: u64,
    pub made: u64,
}
