//! A batch of a crew of any number of workers is a run of a world.
#![tactic(auto)]

pub mod laws;
