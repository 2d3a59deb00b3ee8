//! What a read does next.
use txn_types::{Actor, ReadEnd, Request};

/// What a read does next.
#[derive(Debug, Drop)]
pub enum ReadTurn {
    /// It asks an actor, and waits for the reply.
    Ask { to: Actor, request: Request },
    /// It is over, and ended so.
    Done(ReadEnd),
}
