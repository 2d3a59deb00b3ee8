//! How a program meets the outside: where bytes come from (`Source`), where they go (`Sink`), and where a log is
//! kept (`LogStore`).
//!
//! Each trait says what a call does to the bytes, and what has happened outside where a call fails or stalls: the
//! counts of faults, stalls and loads never fall, and a fault without a cause is not possible. Each has a form in
//! memory that keeps its promise and fails where its script says, exactly there. `SteadySource` and `SteadySink`
//! never fail. `StdSource` and `StdSink` are the edge: they pass calls on to readers and writers of std, and
//! tell nothing of the bytes.
#![tactic(auto)]

mod bounded_bytes;
mod fail_at;
mod failed;
mod load_fault;
mod log_store;
mod mem_log;
mod mem_sink;
mod mem_source;
mod sink;
mod source;
mod std_sink;
mod std_source;
mod steady_sink;
mod steady_source;
#[cfg(test)]
mod tests;

pub use fail_at::FailAt;
pub use failed::Failed;
pub use load_fault::LoadFault;
pub use log_store::LogStore;
pub use mem_log::MemLog;
pub use mem_sink::MemSink;
pub use mem_source::MemSource;
pub use sink::Sink;
pub use source::Source;
pub use std_sink::StdSink;
pub use std_source::StdSource;
pub use steady_sink::SteadySink;
pub use steady_source::SteadySource;
