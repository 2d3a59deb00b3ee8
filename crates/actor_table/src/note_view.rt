//! What a note carries.
use crate::entry_count::EntryCount;
use crate::message::Message;

/// What a note carries. No value of this type is made: contracts speak of it.
pub struct NoteView {
    pub message: Message,
    /// How many entries its sender had made.
    pub count: EntryCount,
}
