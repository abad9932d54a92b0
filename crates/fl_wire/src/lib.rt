//! Packets between nodes, and their bytes.
#![tactic(auto)]

pub mod batch;
pub mod fault;
mod fields;
mod items;
pub mod laws;
mod ops;
pub mod packet;
pub mod reading;
mod walk;
mod whole;
mod window;
pub mod writing;
