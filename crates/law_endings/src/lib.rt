//! How transactions end.
//!
//! Laws over every run: a commit is told Ended exactly where its record is absent because an abort of its own was kept; an abort
//! or an end is told Committed exactly where the record is Committed; and what was told Ended never commits. A call does nothing.
#![tactic(auto)]

mod endings;

pub use endings::{
    aborts_told_committed, commits_told_ended, ended_never_commits, kept_aborts_leave_none,
};
