//! The lines of a script: their words, and what they say.
#![tactic(auto)]

pub mod cut;
mod job;
pub mod laws;
pub mod line;
mod meaning;
pub mod reading;
mod replaced;
pub mod request;
pub mod unread;
pub mod words;
