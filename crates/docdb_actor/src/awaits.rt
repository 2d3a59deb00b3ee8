//! What a session waits for.
use txn_types::Actor;

/// What a session waits for.
#[derive(Clone, Copy, Debug, PartialEq, Eq)]
pub enum Awaits {
    Command,
    /// The reading of its node.
    Reading,
    /// The reply of the actor that it asked.
    Reply { from: Actor },
}
