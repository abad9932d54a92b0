//! What holds of every run of a script, over any keepers: laws of its lines, and by which laws of
//! worlds hold of scripts.
#![tactic(auto)]

pub mod laws;
