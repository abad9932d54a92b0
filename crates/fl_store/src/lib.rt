//! Keepers of a node's operations over its restarts.
#![tactic(auto)]

pub mod health;
pub mod keeper;
pub mod mem;
