//! What the lines of a script over crews do: which of them become a batch, what ends it, and what
//! each is answered, over crews whose calls may do anything.
#![tactic(auto)]

pub mod held;
pub mod naming;
