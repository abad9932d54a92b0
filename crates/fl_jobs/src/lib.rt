//! What is asked of the reference monitor, and what it answers.
#![tactic(auto)]

pub mod answer;
pub mod job;
pub mod secret;
