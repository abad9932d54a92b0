//! What the nodes of a world and a newcomer have against one another: clashes and impostors.
#![tactic(auto)]

pub mod searching;
