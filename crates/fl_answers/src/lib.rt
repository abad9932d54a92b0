//! The text of what jobs are answered.
#![tactic(auto)]

pub mod listed;
pub mod text;
