//! Tests of the public calls on movers, machines and stamps, in a crate of their own.
//!
//! A crate with tests is proved twice. So tests that need public calls alone stand here, above the crates that they call.
#![tactic(auto)]

#[cfg(test)]
mod machines;
#[cfg(test)]
mod movers;
#[cfg(test)]
mod seats;
#[cfg(test)]
mod stages;
