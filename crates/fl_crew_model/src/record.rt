//! What a worker keeps of each job that it served, and the registrar of each order and packet that
//! it ruled on.
ghost use Rattle.std.specs.Prelude.{◌≡◌, ◌≢◌, IfNone, IfSome};
ghost use Rattle.fl_crew_model.specs.Reasons.{refusal_of};

use fl_jobs::answer::{Refusal, Reply};
use fl_jobs::job::Job;
use fl_labels::name::Name;
use fl_labels::pid::Pid;
use fl_message::message::Data;
use fl_ops::op::Op;
use fl_system::answer::Fault;
use fl_wire::batch::OpList;
use std::snapshot::Snapshot;

/// What a job was answered in the end.
#[derive(Debug, Drop)]
pub enum Told {
    /// As its bench answered it.
    Reply(Reply),
    /// The packet is to be sent.
    Out(Data),
    /// The operation of this name is published.
    Published(Name),
    Refused(Fault),
}

/// Why an order has no operation.
#[derive(Clone, Copy, Debug)]
pub enum Reason {
    /// Something saved is due.
    Busy,
    /// No name is left.
    NamesSpent,
    /// There was not enough memory.
    Memory,
}

impl Reason {
    /// The refusal that who gave the order is told.
    pub fn refusal(self) -> Refusal
        ensures { result ≡ refusal_of self }
    {
        match self {
            Reason::Busy => Refusal::Busy,
            Reason::NamesSpent => Refusal::NamesSpent,
            Reason::Memory => Refusal::Memory,
        }
    }

    /// The reason that is told by this refusal, or none where no reason is.
    pub fn told_by(refusal: Refusal) -> Option<Reason>
        ensures some { IfSome result (λ reason. refusal ≡ refusal_of reason) }
        ensures none { IfNone result ((reason : Reason) → refusal ≢ refusal_of reason) }
    {
        match refusal {
            Refusal::Busy => Some(Reason::Busy),
            Refusal::NamesSpent => Some(Reason::NamesSpent),
            Refusal::Memory => Some(Reason::Memory),
            _ => None,
        }
    }
}

/// What the registrar ruled on an order.
#[derive(Clone, Copy, Debug)]
pub enum Ruling {
    /// Its operation is saved and published.
    Made(Op),
    /// Its operation is saved and due: there was no room to publish it, and its maker waits.
    Late(Op, Pid),
    /// It has no operation.
    GivenUp(Reason),
}

/// One job of a worker: its place in the batch, what it was answered, under how much of the list,
/// and what the registrar ruled where it was asked. The job itself is there for contracts alone,
/// since a bench takes a job by value, and a copy would take memory.
#[derive(Drop)]
pub struct Entry {
    pub place: usize,
    pub job: Snapshot<Job>,
    pub told: Told,
    pub seen: u64,
    pub ruling: Option<Ruling>,
}

/// An order that was not ruled on, since the keeper broke as its operation was to be saved: whose
/// it is, and its place.
#[derive(Clone, Copy, Debug)]
pub struct FailedOrder {
    pub worker: u8,
    pub place: usize,
}

/// One ruling: on whose order, at which place, and how long the list was before and after.
#[derive(Clone, Copy, Debug)]
pub struct Decision {
    pub worker: u8,
    pub place: usize,
    pub ruling: Ruling,
    pub before: u64,
    pub after: u64,
}

/// What became of a packet of operations.
#[derive(Clone, Copy, Debug)]
pub enum Verdict {
    /// Its new operations are saved and published.
    Taken,
    /// They are saved and due: there was no room to publish them.
    TakenLate,
    /// Nothing of it is taken.
    Declined,
}

/// One packet that the registrar took or declined.
#[derive(Debug, Drop)]
pub struct Delivery {
    pub place: usize,
    pub ops: OpList,
    pub verdict: Verdict,
    /// How many operations were new, or why none was taken.
    pub answer: Result<u64, Fault>,
    pub before: u64,
    pub after: u64,
}

/// The registrar's record is a list of these.
#[derive(Debug, Drop)]
pub enum Deed {
    Decided(Decision),
    Delivered(Delivery),
}
