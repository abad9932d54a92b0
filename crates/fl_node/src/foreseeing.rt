//! What a node would answer, where nothing is done.
ghost use Rattle.std.specs.Prelude.{◌≡◌, ◌⊎◌, IfOk, IfErr, OnErr, OnOk, Some, None};
ghost use Rattle.fl_labels.specs.declared.cap.Cap.{Cap};
ghost use Rattle.fl_node.specs.Desks.{IsDeskOf};
ghost use Rattle.fl_node.specs.Foresight.{AreWantingAt, CouldAt, IsBehind, WantsAt, begin_check, order_check};

use crate::beginning::next_name;
use crate::node::Node;
use crate::state::idle;
use fl_jobs::answer::{Refusal, Reply};
use fl_jobs::job::{Act, Job};
use fl_labels::cap_set::CapSet;
use fl_store::keeper::Keeper;
use std::alloc::{AllocError, Global};

impl<K: Keeper> Node<K> {
    // That an operation could be begun, or why not.
    fn check_begin(&self) -> Result<(), Refusal>
        ensures ok { OnOk result (begin_check self.now.node None) }
        ensures err { IfErr result (λ f. begin_check self.now.node (Some f)) }
    {
        let Ok(()) = idle(&self.state) else {
            return Err(Refusal::Busy);
        };
        match next_name(&self.saved, self.number) {
            Some(_) => Ok(()),
            None => Err(Refusal::NamesSpent),
        }
    }

    // That the node could begin what the job orders, if it orders something, or why not.
    fn check_order(&self, job: &Job) -> Result<(), Refusal>
        ensures ok { OnOk result (order_check self.now.node job.now None) }
        ensures err { IfErr result (λ f. order_check self.now.node job.now (Some f)) }
    {
        let Job::By(_, act) = job else {
            return Ok(());
        };
        let Act::Order(_) = act else {
            return Ok(());
        };
        self.check_begin()
    }

    // The reply, where the node could begin what the job orders, or else why not.
    fn answer_order(&self, job: &Job, reply: Reply) -> Result<Reply, Refusal>
        ensures ok { IfOk result (λ same.
            (same ≡ reply) × order_check self.now.node job.now None) }
        ensures err { IfErr result (λ f. order_check self.now.node job.now (Some f)) }
    {
        match self.check_order(job) {
            Ok(()) => Ok(reply),
            Err(refusal) => Err(refusal),
        }
    }

    /// What the job would be answered now at its bench, where orders are guarded or not, word for
    /// word, but for want of memory and a keeper that fails: why it would be refused, or else of a
    /// question its answer, and of any other job `Reply::Done`. It is looked at under the whole
    /// list, by the desk where that has seen all, and else by a fresh one. An order that its bench
    /// admits is refused further:
    ///
    /// - `Busy`: something is on its way, or the node is stopped.
    /// - `NamesSpent`: no name is left.
    ///
    /// Fails only where the desk has not seen the whole list, and there is not enough memory.
    /// Leaves the node. Costs what `Bench::could` does, and where the desk is behind, what
    /// `Desk::new` does.
    pub fn could(
        &mut self,
        alloc: Global,
        desk: u8,
        guards: bool,
        job: &Job,
    ) -> Result<Result<Reply, Refusal>, AllocError>
        requires { IsDeskOf self.old.node desk }
        ensures could { IfOk result (CouldAt guards self.old.node job.now) }
        ensures err { OnErr result (IsBehind self.old.node desk) }
        ensures same { self.new ≡ self.old }
    {
        match self
            .benches
            .could(alloc, &mut self.listing, desk, guards, job)?
        {
            Ok(reply) => Ok(self.answer_order(job, reply)),
            Err(refusal) => Ok(Err(refusal)),
        }
    }

    /// The capabilities that are wanting for a job: those that it takes and that its process has
    /// not in effect under the whole list, where no operation of that process is under way. They
    /// are looked at by the desk where that has seen the whole list, and else by a fresh one.
    ///
    /// Fails only where the desk has not seen the whole list or a capability is wanting, and there
    /// is not enough memory. Leaves the node. Costs what `Bench::wanting` does, and where the desk
    /// is behind, what `Desk::new` does.
    pub fn wanting(
        &mut self,
        alloc: Global,
        desk: u8,
        guards: bool,
        job: &Job,
    ) -> Result<CapSet, AllocError>
        requires { IsDeskOf self.old.node desk }
        ensures wanting { IfOk result (AreWantingAt guards self.old.node job.now) }
        ensures err { OnErr result (IsBehind self.old.node desk
            ⊎ ((c : Cap) × WantsAt guards self.old.node job.now c)) }
        ensures same { self.new ≡ self.old }
    {
        self.benches
            .wanting(alloc, &mut self.listing, desk, guards, job)
    }
}
