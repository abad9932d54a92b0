//! Laws by which an event of a world has one outcome.
#![tactic(auto)]

pub mod laws;
