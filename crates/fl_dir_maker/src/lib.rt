//! A maker of keepers over the database files of a directory.
#![tactic(auto)]

mod failure;
pub mod fault;
pub mod file;
pub mod host;
pub mod laws;
pub mod maker;
pub mod opener;
pub mod opening;
