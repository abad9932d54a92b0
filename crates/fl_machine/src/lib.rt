//! One machine's node as a responder to lines: each line is answered by one line, or by `lines K`
//! and K more.
#![tactic(auto)]

mod answers;
mod asking;
mod explaining;
mod foreseeing;
mod greeting;
mod packets;
mod response;
pub mod run;
pub mod session;
