//! The lists that requests, replies, plans and histories hold.
use crate::command::Command;
use crate::entry::Entry;
use crate::fate_of::FateOf;
use crate::found::Found;
use crate::go_line::GoLine;
use crate::place::Place;
use crate::row::Row;
use crate::session_plan::SessionPlan;
use crate::stamped1::Stamped1;
use crate::tablet_limit::TabletLimit;
use crate::written::Written;
use doc_path::Path;
use docdb_base::Seq;

/// A list of bytes: an encoded value, or a part of a path.
pub type Bytes = Seq<u8>;

/// A list of paths.
pub type Paths = Seq<Path>;

/// The fates that a command heard, the first of a transaction counts.
pub type Fates = Seq<FateOf>;

/// The transactions that a tablet found.
pub type Founds = Seq<Found>;

/// The rows of a read.
pub type Rows = Seq<Row>;

/// A list of tablets.
pub type Tablets = Seq<u32>;

/// A recorded history, the oldest entry first.
pub type Entries = Seq<Entry>;

/// The entries of one actor with their stamps.
pub type Part = Seq<Stamped1>;

/// The parts of a history.
pub type Parts = Seq<Part>;

/// A list of readings, in microseconds.
pub type Readings = Seq<u64>;

/// The local limits that a read or a transaction fixed.
pub type Limits = Seq<TabletLimit>;

/// The writes of a transaction by write number.
pub type Writes = Seq<Written>;

/// A list of places.
pub type Places = Seq<Place>;

/// The commands of a session in order.
pub type CommandList = Seq<Command>;

/// The sessions of a plan by rising number.
pub type SessionPlans = Seq<SessionPlan>;

/// A list of numbers.
pub type Numbers = Seq<u32>;

/// The lines that say which mover goes on.
pub type GoLines = Seq<GoLine>;
