//! A write that a tablet accepted.
use txn_types::Written;

/// A write of the open transaction that a tablet accepted.
#[derive(Debug, Drop)]
pub(crate) struct Accepted {
    pub(crate) tablet: u32,
    pub(crate) write: Written,
}
