//! What a bench is and what a job does there, and the processes that it is made of.
#![tactic(auto)]

mod change;
mod history;
pub mod orders;
pub mod owned;
mod past;
pub mod process;
pub mod shared;
pub mod standing;
pub mod taken;
