//! What a session recorded tells the origin of its reads.
//!
//! A law over every history that is a run. A read outside a transaction records a reading of its session, and one inside
//! records none. So whoever goes over a history knows where each finished read has its origin, without the table of a
//! session. A call does nothing.
#![tactic(auto)]

mod laws;

pub use laws::origins_show;
