//! Who makes the keepers of a script's nodes.
#![tactic(auto)]

pub mod maker;
pub mod mem;
