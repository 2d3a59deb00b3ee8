//! What a command line asks a session to do.

/// What a command line asks a session to do, as its word says, or its two words behind `single`.
#[derive(Clone, Copy, Debug, PartialEq, Eq)]
pub enum Verb {
    Begin,
    Put,
    Del,
    Commit,
    Abort,
    Read,
    Scan,
    SinglePut,
    SingleDel,
    Restart,
    Apply,
    Clock,
}
