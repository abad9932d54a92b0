//! The reference monitor: a bench of processes, and what they may do.
#![tactic(auto)]

mod act;
mod arrive;
pub mod bench;
mod could;
mod demand;
mod drop;
mod enter;
mod grant;
mod holder;
mod mail;
mod pid_map;
mod processes;
mod relabel;
mod spawn;
mod wanting;
