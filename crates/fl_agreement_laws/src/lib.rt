//! Laws of what the nodes of a world answer and publish.
#![tactic(auto)]

pub mod laws;
