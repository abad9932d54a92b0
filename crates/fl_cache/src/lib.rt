//! An index that remembers what it answered yes.
#![tactic(auto)]

pub mod cached;
pub mod yes;
