//! What the owners of capabilities reach through the puts of a registry.
#![tactic(auto)]

pub mod absorbed;
mod block;
mod closed;
mod closure;
mod globals;
pub mod index;
mod logins;
mod place;
mod row;
mod rows;
pub mod witness;
