//! What is noted of jobs and messages, made before they are done.
#![tactic(auto)]

pub mod draft;
mod given;
pub mod laws;
pub mod message;
pub mod party;
