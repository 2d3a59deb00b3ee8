//! What a refused command asked.
//!
//! Laws over every run. A put or a del whose refusal ends its transaction asked one Abort of it, last; other than that only an
//! abort or an end asks one. And nothing was restarted for a command that is refused, but for a restart that is told out of
//! memory. A call does nothing.
#![tactic(auto)]

mod laws;

pub use laws::{aborts_are_asked, restarts_are_told};
