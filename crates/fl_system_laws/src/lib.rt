//! Laws of the steps of a node.
#![tactic(auto)]

pub mod laws;
