//! Laws of the runs of worlds.
#![tactic(auto)]

pub mod laws;
