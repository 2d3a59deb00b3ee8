//! The log of a tablet or status tablet: frames of records over any log store.
//!
//! `append` hands the frames of its records to the store in one piece, `frames` gives that piece, and `replay` answers
//! the records whose frames the store holds, or the offset of the first frame that is none. No bytes have two meanings:
//! they are the frames of at most one list of records, or broken at no more than one offset. `specs/Entries.antt` says which records an entry
//! logs, `specs/Replay.antt` what records stand for, and `specs/Logged.antt` what a store holds and has counted after the
//! entries of its actor. By the laws a replay gives what the tables of the actors say of the entries that count.
#![tactic(auto)]

mod laws;
mod log_refusal;
mod read;
mod replay_refusal;
mod write;

pub use laws::{
    a_restart_is_logged, a_serve_is_logged, a_status_tablet_is_replayed, a_tablet_is_replayed,
    bytes_have_one_meaning,
};
pub use log_refusal::LogRefusal;
pub use read::replay;
pub use replay_refusal::ReplayRefusal;
pub use write::{append, frames};
