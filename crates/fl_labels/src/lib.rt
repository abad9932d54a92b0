//! Names, capabilities, process identifiers, and sets of them.
#![tactic(auto)]

pub mod cap;
pub mod cap_set;
mod deque;
pub mod endpoint;
pub mod error;
pub mod label;
pub mod laws;
pub mod list;
pub mod name;
pub mod pid;
pub mod roomy;
pub mod sorted;
mod tags;
pub mod text;
mod uses;
