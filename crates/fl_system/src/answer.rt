//! What a node answers.

use fl_jobs::answer::{Refusal, Reply};
use fl_labels::name::Name;
use fl_message::boxed::Boxed;
use fl_message::message::Data;

/// Why a node refused a call.
#[derive(Clone, Copy, Debug, PartialEq, Eq)]
pub enum Fault {
    /// As the bench refuses a job; also `Memory`, `Busy` and `NamesSpent` of any call. The node is
    /// as before.
    Refused(Refusal),
    /// The keeper broke, or one of its rows is bad. The node is stopped.
    KeeperFailed,
    /// What is kept is not this node's.
    WrongNode,
    /// The node is stopped, and as before.
    Stopped,
    /// Another operation of this name is saved.
    Clash(Name),
    /// An operation of this name would be the node's own, and none of that name is saved.
    Impostor(Name),
}

/// What an admitted job is answered.
#[derive(Drop)]
pub enum Answer {
    Reply(Reply),
    /// The packet is to be sent.
    Out(Boxed<Data>),
    /// An operation of this name is under way, to be saved and published.
    Begun(Name),
}
