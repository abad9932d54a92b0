//! The files of one node: where it is served from, and how it is made.
#![tactic(auto)]

pub mod fault;
pub mod host;
pub mod making;
pub mod opening;
pub mod sizes;
pub mod standard;
