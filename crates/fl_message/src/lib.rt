//! Messages between processes, and what they are on their way.
#![tactic(auto)]

pub mod boxed;
pub mod message;
pub mod payload;
pub mod shared;
