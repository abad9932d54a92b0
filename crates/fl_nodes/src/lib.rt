//! The nodes of a world over their keepers, the packets between them and what was admitted, call by
//! call.
#![tactic(auto)]

mod delivering;
mod highest;
mod joining;
pub mod keepers;
pub mod nodes;
mod sending;
