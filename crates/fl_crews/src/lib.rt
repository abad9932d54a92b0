//! Runs a script whose nodes are crews: consecutive jobs of a node are one batch, whose answers
//! come when the batch has ended.
#![tactic(auto)]

pub mod laws;
pub mod run;
