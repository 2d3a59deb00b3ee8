//! An actor of a cluster, by its number.
use docdb_base::{Memory, TryCopy};
use std::alloc::Global;
use std::fmt;

/// An actor of a cluster, by its number.
#[derive(Clone, Copy, Debug, PartialEq, Eq)]
pub enum Actor {
    /// A tablet, counted from 0.
    Tablet(u32),
    /// A status tablet, counted from 0.
    Status(u32),
    /// A session, counted from 1.
    Session(u32),
    /// The applier of the tablet with this number.
    Applier(u32),
}

impl fmt::Display for Actor {
    fn fmt<W: fmt::Write>(&self, f: &mut fmt::Formatter<W>) -> fmt::Result {
        match self {
            Actor::Tablet(number) => write!(f, "tablet {number}"),
            Actor::Status(number) => write!(f, "status tablet {number}"),
            Actor::Session(number) => write!(f, "session {number}"),
            Actor::Applier(number) => write!(f, "the applier of tablet {number}"),
        }
    }
}

impl TryCopy for Actor {
    fn try_copy(&self, _alloc: Global) -> Result<Actor, Memory> {
        Ok(*self)
    }
}
