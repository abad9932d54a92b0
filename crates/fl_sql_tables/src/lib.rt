//! The tables of a keeper's database, and the statements over them.
#![tactic(auto)]

pub mod boot;
pub mod found;
pub mod itself;
pub mod load;
pub mod migrate;
pub mod ours;
pub mod put;
mod reading;
