//! What a node and a world of nodes are, and what happens to them, as definitions: the types that
//! they speak of, and no code that runs.
#![tactic(auto)]

pub mod admission;
pub mod answer;
pub mod event;
pub mod granted;
pub mod reply;
pub mod sent;
pub mod state;
