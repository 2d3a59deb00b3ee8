//! What the reads, the committed transactions and the refusals of a run are promised, in one record, and what each command may
//! be answered.
//!
//! Definitions over a cluster and its history, above those of `txn_types`: whoever states that a history keeps its promises
//! names `Promises`, and needs no law. That every run in which places agree keeps them is a law of `law_promises`.
#![tactic(auto)]
