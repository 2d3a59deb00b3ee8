//! What tablets show, and the fold of all commits, in every run.
//!
//! The laws of the fold, for every history that is a run and whose lines name one tablet for each first part of a path:
//! where the versions from which a tablet answers are the tablet's writes of what is committed up to the read's time, they
//! leave what the fold of all commits leaves; and where all tablets of a read answered so, the read shows this fold, with
//! the transaction's own writes on top. A call does nothing.
#![tactic(auto)]

mod laws;

pub use laws::{reads_show_the_fold, tablets_show_the_fold};
