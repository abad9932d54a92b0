//! Reads a script in pieces: each line is answered by a responder once it was read, before any more
//! is read.
//!
//! [`run`] does it for any [`responder::Responder`]. What answers lines in another way stands on
//! [`intake::Intake`], which hands them out, and [`tally::Tally`].
#![tactic(auto)]

pub mod conversation;
pub mod fault;
pub mod intake;
pub mod responder;
pub mod run;
mod split;
pub mod tally;
