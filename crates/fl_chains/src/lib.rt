//! Why somebody has a capability: the first of the shortest chains that lead to it; and who has
//! it: all that leads to it.
#![tactic(auto)]

pub mod chain;
pub mod giver;
pub mod groups;
pub mod laws;
mod least;
mod legs;
pub mod logins;
pub mod roots;
mod search;
pub mod step;
