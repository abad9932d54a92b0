//! The crews of a script: they are opened as lines need them, their batches are done, and what they
//! send is kept.
#![tactic(auto)]

pub mod crews;
mod joining;
mod manned;
pub mod runtime;
mod telling;
