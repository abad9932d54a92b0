//! Keepers of a node's operations over a database.
#![tactic(auto)]

pub mod calls;
mod closing;
mod fault;
mod open;
pub mod sql_keeper;
pub mod there;
