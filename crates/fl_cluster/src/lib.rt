//! Runs a script of the registry: each line is answered once it was read, before any more is read.
#![tactic(auto)]

pub mod answers;
mod asking;
pub mod fault;
pub mod options;
pub mod response;
pub mod run;
pub mod session;
pub mod standard;
pub mod watched;
