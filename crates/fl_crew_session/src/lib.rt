//! The session of a script over crews, line by line: which lines wait, what ends their batch, and
//! what each is answered.
#![tactic(auto)]

pub mod session;
mod told;
