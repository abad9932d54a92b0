//! Packets as the bytes that machines exchange: bare, or sealed by a key that they share.
#![tactic(auto)]

pub mod coming;
pub mod going;
pub mod ours;
