//! What a visit of a read considers, in every run.
//!
//! The law of what a read sees at a tablet, for every history that is a run: the rows that a visit collects are those of
//! the writes of all that is committed up to its time, no more and no fewer. A call does nothing.
#![tactic(auto)]

mod laws;

pub use laws::visits_show_the_writes;
