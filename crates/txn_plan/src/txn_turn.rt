//! What a step of a transaction does next.
use txn_types::{Actor, Request, Told};

/// What a step of a transaction does next.
#[derive(Debug, Drop)]
pub enum TxnTurn {
    /// It asks an actor, and waits for the reply.
    Ask { to: Actor, request: Request },
    /// It is over, and told so.
    Done(Told),
}
