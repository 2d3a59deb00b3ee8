//! What is heard decides what is told.
//!
//! A law over every run. Where a request that was served for a told command was refused, or met the row of a refusal, the
//! command is told just that refusal, and nothing more is served for it. An applier may be told out of memory instead. The Abort
//! that a put or a del asks after a refusal is left out: it may still be served, and what it is answered is told to nobody. The
//! command is told Conflict if a Resolve was answered Pending, and Restart if a Collect met something and the read may not
//! restart, or in both cases out of memory. It is told Aborted if a Commit found its record aborted. `proofs/` reads each program
//! once for all that it asks and what each reply means for what is told. A call does nothing.
#![tactic(auto)]

mod laws;

pub use laws::what_is_heard_decides;
