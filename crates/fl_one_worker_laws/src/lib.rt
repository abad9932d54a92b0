//! What a crew of one worker does is what its node does in a script without workers.
#![tactic(auto)]

pub mod laws;
