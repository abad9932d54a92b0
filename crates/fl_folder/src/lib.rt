//! Files of databases that lie in memory, and keepers over them.
#![tactic(auto)]

pub mod folder;
pub mod maker;
mod place;
