//! One worker of a crew: it owns a bench and a desk, and serves its tasks in turn. What a process
//! orders, a registrar rules on, over a channel.
#![tactic(auto)]

pub mod ask;
mod checks;
mod deciding;
pub mod ends;
pub mod gate;
pub mod hearing;
pub mod line;
mod ordering;
mod serving;
pub mod task;
pub mod worker;
