//! The text of what a world answers.
#![tactic(auto)]

pub mod text;
