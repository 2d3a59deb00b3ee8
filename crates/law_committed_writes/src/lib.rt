//! Where the writes of a committed transaction are in every run.
//!
//! The law of kept writes, for every history that is a run: each accepted write of a committed transaction is provisional
//! at the tablet that accepted it, or there is a version there at its path with the commit time; over restarts, kept and
//! lost appends, passes and forgotten records. While something of it is provisional, its record is there. A call does nothing.
#![tactic(auto)]

mod laws;

pub use laws::{committed_is_kept, provisional_is_recorded};
