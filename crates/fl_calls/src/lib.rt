//! What the lines of a script ask of a world: nodes are opened by the first line that names them,
//! and what a line begins is saved and published before it is answered, or left pending.
#![tactic(auto)]

mod asking;
pub mod cluster;
mod completing;
pub mod laws;
pub mod response;
pub mod text;
