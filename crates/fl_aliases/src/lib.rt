//! The aliases of a script: what its lines name, and how these names are replaced in the lines
//! after.
#![tactic(auto)]

pub mod alias;
pub mod expand;
pub mod laws;
mod placed;
pub mod roomy;
pub mod table;
pub mod target;
mod text;
