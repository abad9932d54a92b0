//! A world of nodes, of which every moment of every run is as the laws of worlds have it.
#![tactic(auto)]

pub mod laws;
pub mod world;
