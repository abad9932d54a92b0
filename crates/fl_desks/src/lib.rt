//! The desks of a node, each with its view of what is published, and the benches where the jobs of
//! its processes are done.
#![tactic(auto)]

pub mod benches;
pub mod desk;
pub mod listing;
