//! One node: its keeper, its registry and its bench, step by step.
#![tactic(auto)]

pub mod arriving;
mod beginning;
mod finding;
pub mod foreseeing;
mod keeping;
pub mod lending;
pub mod node;
mod publishing;
pub mod receiving;
mod recovering;
pub mod registry;
mod state;
pub mod telling;
