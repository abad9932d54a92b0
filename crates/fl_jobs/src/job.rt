//! Jobs: what processes ask for.
ghost use Rattle.std.specs.Prelude.{◌≡◌};
ghost use Rattle.fl_jobs.specs.Given.{labels_of};

use crate::secret::Secret;
use fl_labels::cap::Cap;
use fl_labels::cap_set::CapSet;
use fl_labels::endpoint::Endpoint;
use fl_labels::label::Label;
use fl_labels::name::Name;
use fl_labels::pid::Pid;
use fl_message::boxed::Boxed;
use fl_message::message::{Data, Message};
use fl_message::payload::Payload;
use fl_message::shared::Shared;
use fl_ops::op::Policy;
use fl_rules::endpoint::Mode;
use fl_rules::labels::Labels;

/// One of the two labels of a process.
#[derive(Clone, Copy, Debug, PartialEq, Eq)]
pub enum Side {
    Secrecy,
    Integrity,
}

/// A label of more than 256 tags was asked for.
#[derive(Clone, Copy, Debug, PartialEq, Eq)]
pub struct TooLong;

/// Both labels that an endpoint is to have, where they are no longer than labels may be.
#[derive(Debug, Drop)]
pub struct GivenLabels {
    pub secrecy: Result<Label, TooLong>,
    pub integrity: Result<Label, TooLong>,
}

impl GivenLabels {
    /// The two labels, or none where one of them has more than 256 tags.
    pub fn labels(self) -> Option<Labels>
        ensures { result ≡ labels_of self }
    {
        match (self.secrecy, self.integrity) {
            (Ok(secrecy), Ok(integrity)) => Some(Labels { secrecy, integrity }),
            _ => None,
        }
    }
}

/// What adds an operation to the registry.
#[derive(Clone, Copy, Debug, PartialEq, Eq)]
pub enum Order {
    /// A new tag of this policy.
    Tag(Policy),
    /// A new group.
    Group,
    /// Into this group the capability is put.
    Put(Name, Cap),
    /// A new login, by which the capability is given to who shows the secret.
    MakeLogin(Cap, Secret),
    /// This group is opened, so that everybody may use it.
    OpenGroup(Name),
}

/// What a process does with its endpoints, and with the messages that wait for it.
#[derive(Debug, Drop)]
pub enum Mail {
    /// A new endpoint of this mode, with these labels.
    Open(Mode, Boxed<GivenLabels>),
    /// The labels of the endpoint become these.
    Tune(Endpoint, Boxed<GivenLabels>),
    /// The endpoint is no more.
    Close(Endpoint),
    /// The message goes from an endpoint to an endpoint of another process.
    Send {
        from: Endpoint,
        receiver: Pid,
        to: Endpoint,
        message: Shared<Message>,
    },
    /// The oldest message that waits.
    Take,
}

/// What one process asks for by itself.
#[derive(Debug, Drop)]
pub enum Act {
    Order(Order),
    /// The label of this side becomes this one.
    Relabel(Side, Result<Label, TooLong>),
    /// Whether the capability is in effect.
    Ask(Cap),
    /// A new process with the labels of this one, which owns these.
    Spawn(Boxed<CapSet>),
    /// The process ends.
    Exit,
    /// The process owns the capability no more.
    Drop(Cap),
    /// The capability of the login of this name, by its secret.
    Enter(Name, Secret),
    /// These bytes go to the outside.
    Emit(Boxed<Payload>),
    Mail(Mail),
}

/// One job of the reference monitor.
#[derive(Debug, Drop)]
pub enum Job {
    /// A new process, with nothing.
    Proc,
    By(Pid, Act),
    /// Whether the first capability, the root, reaches the second.
    Member(Cap, Cap),
    /// A message comes to its receiver. Made of a packet that was sent alone.
    Arrive(Boxed<Data>),
}

/// Lets go of a job that is not done. A call, so that this is proved in one step where a job is let
/// go.
pub fn let_go(_job: Job) {}
