//! What a batch of a crew is, as definitions, and its laws. A crew is a node whose benches and
//! desks are lent to workers, one each, while a registrar saves and publishes. Of code there is
//! only the comparison after the workers are back. No crew runs yet.
#![tactic(auto)]

pub mod compare;
pub mod laws;
pub mod record;
pub mod same;
pub mod settle;
