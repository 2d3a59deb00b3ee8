//! The list type that contracts see as its items, the trait for copies that may run out of memory, and
//! the generator of numbers.
#![tactic(auto)]

mod generator;
mod seq;
#[cfg(test)]
mod tests;
mod try_copy;

pub use generator::Generator;
pub use seq::Seq;
pub use try_copy::TryCopy;

/// Out of memory.
pub type Memory = std::alloc::AllocError;
