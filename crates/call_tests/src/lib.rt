//! Tests of public calls, in a crate of their own.
//!
//! A crate with tests is proved twice. So tests that need public calls alone stand here, above the crates that they call.
#![tactic(auto)]

#[cfg(test)]
mod clocks;
#[cfg(test)]
mod heads;
#[cfg(test)]
mod made_scripts;
#[cfg(test)]
mod merging;
#[cfg(test)]
mod scripts;
