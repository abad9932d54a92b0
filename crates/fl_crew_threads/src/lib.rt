//! The workers of a crew, each in a thread of its own, while their registrar rules on what they
//! order. A crew is a node whose processes several workers serve at once.
#![tactic(auto)]

pub mod lines;
pub mod ruling;
pub mod running;
mod threads;
mod weight;
