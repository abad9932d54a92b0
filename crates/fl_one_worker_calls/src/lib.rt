//! What a crew of one worker does is what the lines of a script without workers do in a world.
#![tactic(auto)]

pub mod laws;
