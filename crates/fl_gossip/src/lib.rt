//! What a node takes of others' packets, and what it answers them.
#![tactic(auto)]

mod ahead;
pub mod fault;
pub mod laws;
pub mod meeting;
pub mod replying;
pub mod taking;
