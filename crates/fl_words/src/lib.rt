//! The words of the program `flume-tags`.
#![tactic(auto)]

pub mod words;
