//! The end of a batch of a crew. Once the workers are back, the entries of each are compared with
//! the registrar's record, its desk learns all that is published, and what contradicts is given up.
#![tactic(auto)]

mod comparing;
mod giving_up;
pub mod settle;
