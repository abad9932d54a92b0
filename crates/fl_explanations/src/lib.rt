//! What a node explains of the operations that it has published.
#![tactic(auto)]

pub mod log;
pub mod missing;
pub mod naming;
pub mod overview;
pub mod shown;
pub mod text;
pub mod who;
pub mod why;
