//! What a worker and the registrar say to each other.

use crate::line::Out;
use fl_crew_model::record::Ruling;
use fl_labels::pid::Pid;
use fl_ops::op::Body;
use fl_system::answer::Fault;

/// What a worker tells the registrar.
#[derive(Drop)]
pub enum Ask {
    /// It is to rule on this order, and to answer it on this end.
    Order(Ordered, Out<Ruled>),
    /// The worker is done.
    Done,
}

/// An operation of this body is to be saved and published for its maker.
#[derive(Clone, Copy, Debug)]
pub struct Ordered {
    /// Where the job stands that ordered it.
    pub place: usize,
    /// What the operation is to do.
    pub body: Body,
    /// The process that ordered it.
    pub pid: Pid,
}

/// What the registrar answers to an order.
#[derive(Clone, Copy, Debug)]
pub enum Ruled {
    /// It ruled so.
    Ruling(Ruling),
    /// It could not rule: the keeper broke, or the node is stopped.
    Failed(Fault),
}
