//! The message that a seat holds.
use crate::message::Message;

/// The message that a seat holds. No value of this type is made: contracts speak of it.
pub enum Held {
    Nothing,
    /// The message of the seat's last entry, which has not left yet.
    Made(Message),
    /// A message that arrived, and that no entry used.
    Arrived(Message),
}
