//! One list of operations that a press publishes, and desks that read it without a lock.
//!
//! A board is a press and up to 64 desks. Each desk may go to a thread of its own, where it answers
//! who reaches what while the press publishes on; a service that embeds the registry asks through
//! it. Only [`board`] and the calls of the press that take `rt` wait. No call of a desk does.
#![tactic(auto)]

pub mod desk;
mod history;
pub mod look;
mod making;
pub mod press;
mod published;
mod rule;
pub mod told;
mod writing;

pub use making::board;
