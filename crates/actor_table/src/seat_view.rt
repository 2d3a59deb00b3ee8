//! What a seat knows.
use crate::entry_count::EntryCount;
use crate::gathered_seat::GatheredSeat;
use crate::held::Held;
use crate::stamped_entry::StampedEntry;
use docdb_base::Seq;

/// What a seat knows. No value of this type is made: contracts speak of it.
pub struct SeatView {
    /// The number of its actor.
    pub actor: u64,
    /// The first actor whose seat is not dealt yet: this seat may deal those from here up to its own.
    pub next: u64,
    /// The entries that it made, in order.
    pub own: Seq<StampedEntry>,
    /// The seat knows that the stamps below this number are given.
    pub known: u64,
    pub gathered: Seq<GatheredSeat>,
    pub held: Held,
    /// What the last note that arrived told of its sender.
    pub seen: Option<EntryCount>,
}
