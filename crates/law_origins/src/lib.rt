//! The origin of a read does not depend on the cluster.
//!
//! A law over every history: whatever the config, the origin of a finished read, which the skew premise and freshness speak
//! of, is the same. So whoever tests that premise needs to know no config. A call does nothing.
#![tactic(auto)]

mod laws;

pub use laws::origins_are_of_no_config;
