//! A line of a script.
use txn_types::Command;

/// A line of a script's body.
#[derive(Debug, Drop)]
pub enum Line {
    Blank,
    Told(Command),
}
