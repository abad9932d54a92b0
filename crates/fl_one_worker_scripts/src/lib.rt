//! A script over crews of one worker, beside the same script without workers.
#![tactic(auto)]

pub mod laws;
