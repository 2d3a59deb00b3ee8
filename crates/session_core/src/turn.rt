//! What a session does next.
use txn_types::{Actor, Request, Told};

/// What a session does next.
#[derive(Debug, Drop)]
pub enum Turn {
    /// It wants the reading of its node.
    Reading,
    /// It asks an actor, and waits for the reply.
    Ask { to: Actor, request: Request },
    /// The command is over, and told so.
    Tell(Told),
}
