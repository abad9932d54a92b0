//! The ends that a worker has.
ghost use Rattle.std.specs.Prelude.{◌≡◌, IfErr};
ghost use Rattle.fl_system.specs.declared.answer.Fault.TheVariants as faults;
ghost use Rattle.fl_worker.specs.Stops.{IsStop};

use crate::ask::{Ask, Ordered, Ruled};
use crate::line::{In, Out, line};
use fl_crew_model::record::Ruling;
use fl_system::answer::Fault;
use std::alloc::{AllocError, Global};
use std::sync::Wait;

// How many rulings may wait to be heard by a worker, which asks for one at a time.
const RULINGS: usize = 4;

/// The end on which a worker asks the registrar, and both ends of the channel on which it is
/// answered: one goes with each order.
///
/// A worker holds an end that answers it, so it is never told that nobody else does: each order
/// that is heard has to be answered ([`Unanswered`]), and each that is sent has to be heard.
///
/// [`Unanswered`]: crate::hearing::Unanswered
#[derive(Drop)]
pub struct Ends {
    to: Out<Ask>,
    answers: Out<Ruled>,
    from: In<Ruled>,
}

// Why a worker stops where the registrar could not rule for this.
fn stop_by(fault: Fault) -> Fault
    ensures stop { IsStop result }
    ensures broken { fault ≡ faults.KeeperFailed → result ≡ fault }
{
    match fault {
        Fault::KeeperFailed => Fault::KeeperFailed,
        _ => Fault::Stopped,
    }
}

impl Ends {
    /// The ends of a worker that asks on this one. Fails only where there is not enough memory.
    pub fn new(alloc: Global, to: Out<Ask>) -> Result<Ends, AllocError> {
        let (answers, from) = line::<Ruled>(alloc, RULINGS)?;
        Ok(Ends { to, answers, from })
    }

    /// Asks the registrar to rule on an order of this worker, and waits for its ruling.
    ///
    /// `KeeperFailed` where the registrar says so. `Stopped` where it says anything else that is no
    /// ruling, or is gone, or where there is no memory for one more end on which it could answer:
    /// it then knows nothing of the order.
    pub fn ask<R: Wait>(&mut self, rt: &R, ordered: Ordered) -> Result<Ruling, Fault>
        ensures { IfErr result IsStop }
    {
        let Ok(answer) = self.answers.another() else {
            return Err(Fault::Stopped);
        };
        if !self.to.send(rt, Ask::Order(ordered, answer)) {
            return Err(Fault::Stopped);
        }
        let Some(ruled) = self.from.receive(rt) else {
            return Err(Fault::Stopped);
        };
        match ruled {
            Ruled::Ruling(ruling) => Ok(ruling),
            Ruled::Failed(fault) => Err(stop_by(fault)),
        }
    }

    /// Tells the registrar that this worker is done, or nobody where the registrar is gone.
    pub fn finish<R: Wait>(&mut self, rt: &R) {
        self.to.send(rt, Ask::Done);
    }
}
