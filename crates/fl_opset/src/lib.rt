//! Sets of operations, their text, and what one set has that another lacks.
#![tactic(auto)]

pub mod batch;
pub mod intervals;
mod joining;
mod lacking;
pub mod laws;
mod merging;
pub mod node_ops;
pub mod rank;
mod search;
pub mod set;
pub mod span;
mod spans;
pub mod text;
pub mod walks;
mod windows;
