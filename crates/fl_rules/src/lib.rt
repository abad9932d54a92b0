//! What is safe, for who has certain capabilities in effect.
#![tactic(auto)]

pub mod change;
pub mod emission;
pub mod endpoint;
pub mod has;
pub mod labels;
pub mod laws;
pub mod pair;
mod walk;
