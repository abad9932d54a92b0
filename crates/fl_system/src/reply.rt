//! What a world answers.

use crate::answer::Fault;
use fl_jobs::answer;
use fl_labels::name::Name;

/// What an event of a world is answered.
#[derive(PartialEq, Eq)]
pub enum Reply {
    /// The answer to an admitted job, or to a message that arrived.
    Job(answer::Reply),
    /// An operation of this name is under way, to be saved and published.
    Begun(Name),
    /// So many received operations are under way, to be saved and published.
    Taking(u64),
    /// So many received operations are published; 0 of a packet that brought nothing new.
    Took(u64),
    /// The operation of this name is published.
    Published(Name),
    /// What was pending is saved, or given up.
    Done,
    /// The node was opened, as this boot.
    Booted(u32),
    /// Packets were sent: so many, the first of which has this number.
    Sent { first: u64, count: u64 },
    /// What the event names is not there. Nothing has changed.
    NoSuch,
    Refused(Fault),
}

impl Drop for Reply {
    fn drop(self) {
        match self {
            Reply::Job(_) => {}
            Reply::Begun(_) => {}
            Reply::Taking(_) => {}
            Reply::Took(_) => {}
            Reply::Published(_) => {}
            Reply::Done => {}
            Reply::Booted(_) => {}
            Reply::Sent { first: _, count: _ } => {}
            Reply::NoSuch => {}
            Reply::Refused(_) => {}
        }
    }
}
