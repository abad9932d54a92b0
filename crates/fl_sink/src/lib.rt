//! Writing by way of a buffer, so that what was written is known after a fault too.
#![tactic(auto)]

pub mod laws;
pub mod sink;
pub mod writer;
