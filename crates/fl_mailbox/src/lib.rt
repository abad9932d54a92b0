//! The mailbox of a process: its open endpoints, and the messages that wait for it.
#![tactic(auto)]

pub mod endpoints;
pub mod inbox;
pub mod laws;
pub mod mailbox;
pub mod offender;
