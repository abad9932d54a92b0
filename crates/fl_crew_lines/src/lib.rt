//! What the lines of a script over crews ask, name and are answered.
#![tactic(auto)]

pub mod asking;
