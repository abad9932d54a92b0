//! Seals of packets: who has a key knows of a sealed packet that who sent it had the key too.
#![tactic(auto)]

pub mod seal;
