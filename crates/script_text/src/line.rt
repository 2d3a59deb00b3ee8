//! A line of the body.
use txn_data::{Command, GoLine};

/// A line of the body.
#[derive(Debug, Drop)]
pub enum Line {
    /// Without words, or a remark.
    Passed,
    /// A command of a session.
    Told { session: u32, command: Command },
    /// A mover goes on.
    Goes(GoLine),
}
