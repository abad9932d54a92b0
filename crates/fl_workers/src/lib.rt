//! A crew: one node whose processes are served by several workers at once, each at its own bench
//! and its own desk of the published list, while a registrar names, saves and publishes what they
//! order.
#![tactic(auto)]

pub mod crew;
pub mod entry;
pub mod fault;
pub mod gate;
mod manned;
mod planning;
mod seating;
mod working;
