//! The refusal of an actor that has no stamps left.
use std::error::Error;
use std::fmt;
use txn_data::Actor;

/// The actor has made 1,099,511,627,776 entries, and makes no more.
#[derive(Clone, Copy, Debug, PartialEq, Eq)]
pub struct Spent {
    pub actor: Actor,
}

impl fmt::Display for Spent {
    fn fmt<W: fmt::Write>(&self, f: &mut fmt::Formatter<W>) -> fmt::Result {
        write!(f, "{} has made as many entries as an actor can", self.actor)
    }
}

impl Error for Spent {}
