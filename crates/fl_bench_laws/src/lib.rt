//! Laws of benches, of whatever jobs and registries.
#![tactic(auto)]

pub mod laws;
