//! What a tablet answered in a round.
use txn_types::Rows;

/// What a tablet answered in the round that is under way.
#[derive(Debug, Drop)]
pub(crate) struct TabletRows {
    pub(crate) tablet: u32,
    pub(crate) rows: Rows,
}
