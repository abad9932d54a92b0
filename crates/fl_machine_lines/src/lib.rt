//! The lines to one machine: those of a script that ask something of a node, and some of its own.
#![tactic(auto)]

pub mod asked;
pub mod explaining;
pub mod laws;
pub mod line;
