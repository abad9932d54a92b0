//! Crews of any number of workers, as nodes of a world.
#![tactic(auto)]

pub mod laws;
