//! What a run of a cluster is, and what it has to answer.
//!
//! The types of requests, replies, entries and plans stand in `txn_data` and are passed on. The definitions in `specs/`
//! are what a reader of the project has to believe: the table of each actor, a run, what was committed, and what a read
//! answers. The trait `Machine` says what serves requests by such a table.
#![tactic(auto)]

mod machine;
mod recording;
#[cfg(test)]
mod tests;

pub use machine::Machine;
pub use recording::{id_of, node_of, record, told_refusal};
pub use txn_data::{
    Actor, Append, Bytes, Command, CommandList, Commands, CommittedTxn, Config, Entries, Entry,
    Event, Fate, FateOf, Fates, Found, Founds, GoLine, GoLines, Histories, Isolation, Limits,
    MetAt, Meta, MoveAt, Mover, Numbers, Op, Part, Parts, Paths, Place, Places, Provisional,
    ReadEnd, ReadKind, ReadWhat, Readings, Refusal, Reply, Request, Row, Rows, Schedule, Served,
    SessionPlan, SessionPlans, Stamped1, TabletLimit, Tablets, Told, ToldRefusal, Trace, TxnId,
    TxnStep, Version, Window, Writes, Written,
};
