//! Operations of the tag registry, their order and their bytes.
#![tactic(auto)]

pub mod digest;
pub mod fault;
pub mod fields;
pub mod format;
pub mod laws;
pub mod op;
pub mod reading;
pub mod view;
pub mod writing;
