//! How the jobs and packets of a batch are dealt to the workers of a crew and to its registrar, and
//! how what these answer is put into one list again. No thread runs here.
#![tactic(auto)]

pub mod dealing;
pub mod entry;
pub mod gathering;
pub mod item;
pub mod laws;
