//! What a seat knew that another one took in.
use crate::entry_count::EntryCount;
use crate::held::Held;
use crate::stamped_entry::StampedEntry;
use docdb_base::Seq;

/// What a seat knew that another one took in. No value of this type is made: contracts speak of it.
pub struct GatheredSeat {
    pub actor: u64,
    pub own: Seq<StampedEntry>,
    pub held: Held,
    pub seen: Option<EntryCount>,
}
