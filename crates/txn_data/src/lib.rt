//! What the actors of a cluster say to one another, what a session is told, and what a history holds.
//!
//! Plain data. The contract of the crate: each value has `try_copy`, which gives an equal one, and `takes_time` says
//! which requests take a reading.
#![tactic(auto)]

mod actor;
mod append;
mod command;
mod commands;
mod committed_txn;
mod config;
mod entry;
mod event;
mod fate;
mod fate_of;
mod found;
mod go_line;
mod histories;
mod isolation;
mod lists;
mod met_at;
mod meta;
mod move_at;
mod mover;
mod op;
mod place;
mod provisional;
mod read_end;
mod read_kind;
mod read_what;
mod refusal;
mod reply;
mod request;
mod row;
mod schedule;
mod served;
mod session_plan;
mod stamped1;
mod tablet_limit;
#[cfg(test)]
mod tests;
mod told;
mod told_refusal;
mod trace;
mod txn_id;
mod txn_step;
mod version;
mod window;
mod written;

pub use actor::Actor;
pub use append::Append;
pub use command::Command;
pub use commands::Commands;
pub use committed_txn::CommittedTxn;
pub use config::Config;
pub use entry::Entry;
pub use event::Event;
pub use fate::Fate;
pub use fate_of::FateOf;
pub use found::Found;
pub use go_line::GoLine;
pub use histories::Histories;
pub use isolation::Isolation;
pub use lists::{
    Bytes, CommandList, Entries, Fates, Founds, GoLines, Limits, Numbers, Part, Parts, Paths,
    Places, Readings, Rows, SessionPlans, Tablets, Writes,
};
pub use met_at::MetAt;
pub use meta::Meta;
pub use move_at::MoveAt;
pub use mover::Mover;
pub use op::Op;
pub use place::Place;
pub use provisional::Provisional;
pub use read_end::ReadEnd;
pub use read_kind::ReadKind;
pub use read_what::ReadWhat;
pub use refusal::Refusal;
pub use reply::Reply;
pub use request::Request;
pub use row::Row;
pub use schedule::Schedule;
pub use served::Served;
pub use session_plan::SessionPlan;
pub use stamped1::Stamped1;
pub use tablet_limit::TabletLimit;
pub use told::Told;
pub use told_refusal::ToldRefusal;
pub use trace::Trace;
pub use txn_id::TxnId;
pub use txn_step::TxnStep;
pub use version::Version;
pub use window::Window;
pub use written::Written;
