//! A step of a transaction, or a single write.
use crate::lists::Tablets;
use crate::meta::Meta;
use crate::op::Op;
use crate::place::Place;
use docdb_base::{Memory, TryCopy};
use hybrid_time::HybridTime;
use std::alloc::Global;

/// A step of a transaction, or a single write.
#[derive(Debug, Drop)]
pub enum TxnStep {
    Begin {
        meta: Meta,
        r: HybridTime,
    },
    Write {
        meta: Meta,
        number: u32,
        place: Place,
        op: Op,
        read: HybridTime,
        seen: HybridTime,
    },
    Single {
        meta: Meta,
        place: Place,
        op: Op,
        seen: HybridTime,
    },
    Commit {
        meta: Meta,
        floor: HybridTime,
        tablets: Tablets,
    },
    Abort {
        meta: Meta,
    },
}

impl TryCopy for TxnStep {
    fn try_copy(&self, alloc: Global) -> Result<TxnStep, Memory> {
        match self {
            TxnStep::Begin { meta, r } => Ok(TxnStep::Begin { meta: *meta, r: *r }),
            TxnStep::Write {
                meta,
                number,
                place,
                op,
                read,
                seen,
            } => Ok(TxnStep::Write {
                meta: *meta,
                number: *number,
                place: place.try_copy(alloc)?,
                op: op.try_copy(alloc)?,
                read: *read,
                seen: *seen,
            }),
            TxnStep::Single {
                meta,
                place,
                op,
                seen,
            } => Ok(TxnStep::Single {
                meta: *meta,
                place: place.try_copy(alloc)?,
                op: op.try_copy(alloc)?,
                seen: *seen,
            }),
            TxnStep::Commit {
                meta,
                floor,
                tablets,
            } => Ok(TxnStep::Commit {
                meta: *meta,
                floor: *floor,
                tablets: tablets.try_copy(alloc)?,
            }),
            TxnStep::Abort { meta } => Ok(TxnStep::Abort { meta: *meta }),
        }
    }
}
