//! Laws of noninterference: what a tainted process does changes nothing that others are answered
//! from.
#![tactic(auto)]

pub mod laws;
