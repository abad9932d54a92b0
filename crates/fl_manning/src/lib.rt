//! How the workers of a crew are given the tasks of a batch, how they give back what they did, and
//! how the batch ends. No thread runs here.
#![tactic(auto)]

pub mod awaiting;
pub mod beginning;
pub mod catching_up;
pub mod ending;
pub mod finishing;
pub mod giving;
pub mod lanes;
pub mod numbers;
