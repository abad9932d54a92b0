//! What a node does with a job or with a packet that comes to it, and what is sent and noted of it.
#![tactic(auto)]

pub mod bringing;
pub mod working;
