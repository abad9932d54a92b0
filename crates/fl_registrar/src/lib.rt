//! The registrar of a crew: it names, saves and publishes what the workers order, takes packets of
//! operations, and writes a record of each deed.
//!
//! A crew is a node whose benches and desks are lent to workers, while its registrar alone saves
//! and publishes. Here is its part, call by call; channels and threads are elsewhere.
#![tactic(auto)]

pub mod awaited;
pub mod parcel;
pub mod registrar;
mod saving;
mod waiting;
