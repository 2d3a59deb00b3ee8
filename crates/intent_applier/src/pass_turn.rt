//! What a pass does next.
use txn_types::{Actor, Request, Told};

/// What a pass does next.
#[derive(Debug, Drop)]
pub enum PassTurn {
    /// It asks an actor, and waits for the reply.
    Ask { to: Actor, request: Request },
    /// It is over, and told so: `Passed`, or the first refusal.
    Done(Told),
}
