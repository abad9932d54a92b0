//! Keys of seals, read from files.
#![tactic(auto)]

pub mod fault;
pub mod host;
pub mod reading;
pub mod text;
