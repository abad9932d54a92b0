//! Laws of the processes of a world, by what happened to them: which pids are given, who comes to
//! live and who goes, and what they own, open, set and send.
#![tactic(auto)]

pub mod laws;
