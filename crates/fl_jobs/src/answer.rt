//! Answers to jobs.

use fl_labels::cap::Cap;
use fl_labels::endpoint::Endpoint;
use fl_labels::name::Name;
use fl_labels::pid::Pid;
use fl_message::boxed::Boxed;
use fl_message::message::{Data, Letter};
use fl_message::payload::Payload;
use fl_ops::op::Body;

/// Why a job was refused. The bench is then as before.
#[derive(Clone, Copy, Debug, PartialEq, Eq)]
pub enum Refusal {
    /// There is no such process on this node.
    NoProcess(Pid),
    /// An operation of the process is under way.
    Busy,
    /// The least capability that is needed and not in effect.
    MissingCap(Cap),
    /// The endpoint is not open.
    NoEndpoint(Endpoint),
    /// The least endpoint that would not be safe, and its least tag that may not be both added and
    /// removed.
    UnsafeEndpoint(Endpoint, Name),
    /// The process has 64 endpoints.
    EndpointsFull,
    /// The endpoint is not for writing.
    NotWritable(Endpoint),
    /// The endpoint is not for reading.
    NotReadable(Endpoint),
    /// The least tag that may not go to the outside, or into the receiver's endpoint.
    Secrecy(Name),
    /// The least tag of the receiver's endpoint that the message does not have.
    Integrity(Name),
    /// There is no login of this name.
    NoLogin(Name),
    /// The login has another secret.
    WrongSecret,
    /// The next number of its kind would be above 4,294,967,295.
    NamesSpent,
    /// A label of more than 256 tags.
    LabelTooLong,
    /// A growth was refused.
    Memory,
    /// The process does not own the capability.
    NotOwned(Cap),
    /// 256 messages wait for the receiver.
    InboxFull,
}

/// What an admitted job is answered.
#[derive(Debug, PartialEq, Eq)]
pub enum Reply {
    /// The process that was made.
    Made(Pid),
    Done,
    Yes,
    NotYet,
    /// The capability that the login gave.
    Entered(Cap),
    /// These bytes went to the outside.
    Emitted(Boxed<Payload>),
    /// The endpoint that was opened.
    Opened(Endpoint),
    /// The message that was taken.
    Taken(Boxed<Letter>),
    /// No message waits.
    Empty,
    /// The process that a message came to.
    Arrived(Pid),
}

impl Drop for Reply {
    fn drop(self) {
        match self {
            Reply::Made(_) => {}
            Reply::Done => {}
            Reply::Yes => {}
            Reply::NotYet => {}
            Reply::Entered(_) => {}
            Reply::Emitted(_) => {}
            Reply::Opened(_) => {}
            Reply::Taken(_) => {}
            Reply::Empty => {}
            Reply::Arrived(_) => {}
        }
    }
}

/// What comes of an admitted job.
#[derive(Debug, Drop, PartialEq, Eq)]
pub enum Outcome {
    Reply(Reply),
    /// An operation of this body is to be saved and published for its maker.
    Order(Boxed<Body>, Pid),
    /// The packet is to be sent.
    Out(Boxed<Data>),
}
