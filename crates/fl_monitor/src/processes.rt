//! The processes of one bench.
ghost use Rattle.std.specs.Option.{option_copied};
ghost use Rattle.std.specs.Prelude.{◌≡◌, ◌≢◌, [], IfOk, OnOk, OnErr, IsSome};
ghost use Rattle.std.specs.FinMap as map;
ghost use Rattle.fl_message.specs.declared.message.Data.{Data};
ghost use Rattle.fl_ops.specs.Registry.{Listed};
ghost use Rattle.fl_jobs.specs.declared.job.Act.TheVariants.{Spawn};
ghost use Rattle.fl_jobs.specs.declared.job.Job.TheVariants.{Arrive};
ghost use Rattle.fl_monitor.specs.parts.Acts.{ActsAt, ArrivesAt, Ends, IsAnswered, answered, bearing};
ghost use Rattle.fl_monitor.specs.parts.Checked.{Checked};
ghost use Rattle.fl_monitor.specs.parts.Could.{CouldBy, coming_checks};
ghost use Rattle.fl_bench.specs.Gifts.{given, receives};
ghost use Rattle.fl_bench.specs.Process.{standing_at};

use crate::act::act_alone;
use crate::arrive::{arrive, check_arrival};
use crate::could::could_act;
use crate::pid_map::PidMap;
use crate::spawn::spawn;
use fl_bench::process::{Holding, Process};
use fl_bench::standing::Standing;
use fl_jobs::answer::{Outcome, Refusal, Reply};
use fl_jobs::job::{Act, Job};
use fl_labels::cap_set::CapSet;
use fl_labels::pid::Pid;
use fl_message::boxed::Boxed;
use fl_message::message::Data;
use fl_message::shared::Shared;
use fl_ops::op::Op;
use fl_ops::view::View;
use std::alloc::{AllocError, Global};
use std::marker::Model;

/// Processes by what they are called.
#[derive(Drop)]
pub struct Processes {
    alloc: Global,
    all: PidMap<Process>,
}

impl Model for Processes {
    ghost use Rattle.std.specs.FinMap as map;
    ghost use Rattle.fl_labels.specs.Pid.{pid_cmp};
    ghost use Rattle.fl_labels.specs.PidOrder.{coded_pid};
    ghost use Rattle.fl_bench.specs.declared.process.Process.{Process};
    ghost use Rattle.fl_bench.specs.contracts.process.Process as processes_row;

    ghost Value = { map.FinMap pid_cmp Process };

    ghost coded = { map.code coded_pid (processes_row.the_row).coded };

    ghost view = { λ a. a.all };
}

impl Processes {
    /// None, for pids whose serials are `stride` apart. Takes no memory.
    pub fn new(alloc: Global, stride: u32) -> Self
        ensures { result ≡ map.empty }
    {
        Processes {
            alloc,
            all: PidMap::new(alloc, stride),
        }
    }

    /// The process of that name, or none.
    pub fn get(&self, pid: Pid) -> Option<&Process>
        ensures { option_copied result ≡ map.get self.now pid }
    {
        self.all.get(pid)
    }

    /// The pids of all, rising. Fails only where there is one, and not enough memory. Costs a pass
    /// over all.
    pub fn pids(&self, alloc: Global) -> Result<Vec<Pid>, AllocError>
        ensures ok { IfOk result (λ made. made.items ≡ map.keys self.now) }
        ensures err { OnErr result (map.keys self.now ≢ []) }
    {
        self.all.pids(alloc)
    }

    /// Puts a process, in the place of one of that name. An error leaves them.
    pub fn insert(&mut self, pid: Pid, process: Boxed<Process>) -> Result<(), AllocError>
        ensures ok { OnOk result (self.new ≡ map.insert self.old pid process) }
        ensures err { OnErr result (self.new ≡ self.old) }
    {
        self.all.insert(pid, process)
    }

    /// Removes a process, unless an operation of it is under way. Takes no memory.
    pub fn end(&mut self, pid: Pid) -> Result<(), Refusal>
        ensures { Ends self.old pid result self.new }
    {
        let Some(process) = self.all.get(pid) else {
            return Err(Refusal::NoProcess(pid));
        };
        let Holding::Idle(_) = process.owned else {
            return Err(Refusal::Busy);
        };
        self.all.remove(pid);
        Ok(())
    }

    /// A child of the process that is to own these, or why there is none.
    pub fn spawn<V: View>(
        &self,
        alloc: Global,
        view: &mut V,
        pid: Pid,
        caps: CapSet,
    ) -> Result<Result<Boxed<Process>, AllocError>, Refusal>
        ensures acts { let registry = Listed (V.list view.old) in
            ActsAt registry self.now pid (Spawn caps) (bearing result) self.now }
        ensures same { view.new ≡ view.old }
    {
        let Some(process) = self.all.get(pid) else {
            return Err(Refusal::NoProcess(pid));
        };
        let Holding::Idle(owned) = &process.owned else {
            return Err(Refusal::Busy);
        };
        spawn(alloc, view, owned.caps(), &process.labels, caps)
    }

    /// Does what one process asks for by itself.
    pub fn act<V: View>(
        &mut self,
        alloc: Global,
        view: &mut V,
        pid: Pid,
        act: &mut Act,
    ) -> Result<Outcome, Refusal>
        requires { IsAnswered act.old }
        ensures acts { let registry = Listed (V.list view.old) in
            ActsAt registry self.old pid act.old (answered result) self.new }
        ensures same { view.new ≡ view.old }
    {
        let Some(process) = self.all.get_mut(pid) else {
            return Err(Refusal::NoProcess(pid));
        };
        act_alone(process, alloc, view, pid, act)
    }

    /// How the process stands, for whoever notes it, or none where it is not there. Fails only
    /// where there is not enough memory. Costs a search for the process, and what `Owned::share`
    /// does.
    pub fn share(&mut self, alloc: Global, pid: Pid) -> Result<Option<Shared<Standing>>, AllocError>
        ensures ok { IfOk result (λ made. made ≡ standing_at (map.get self.old pid)) }
        ensures err { OnErr result (IsSome (map.get self.old pid)) }
        ensures same { self.new ≡ self.old }
    {
        let Some(process) = self.all.get_mut(pid) else {
            return Ok(None);
        };
        Ok(Some(process.share(alloc)?))
    }

    /// Brings the message of an arrival to its receiver.
    pub fn arrive(&mut self, arrival: Job) -> Result<Outcome, Refusal>
        requires { (d : Data) × (arrival ≡ Arrive d) }
        ensures { (d : Data) → arrival ≡ Arrive d → ArrivesAt self.old d result self.new }
    {
        let Job::Arrive(data) = arrival else {
            unreachable!("a message arrives")
        };
        let data = data.into_inner();
        let Some(process) = self.all.get_mut(data.receiver) else {
            return Err(Refusal::NoProcess(data.receiver));
        };
        arrive(process, data)
    }

    /// What one process would be answered to the act, where orders are guarded or not: why it would
    /// be refused, but for want of memory or of a serial, or what is foretold. Leaves them.
    /// Takes no memory.
    pub fn could_act<V: View>(
        &mut self,
        view: &mut V,
        guards: bool,
        pid: Pid,
        act: &Act,
    ) -> Result<Reply, Refusal>
        ensures could { CouldBy guards (Listed (V.list view.old)) self.old pid act.now result }
        ensures kept { self.new ≡ self.old }
        ensures same { view.new ≡ view.old }
    {
        let Some(process) = self.all.get_mut(pid) else {
            return Err(Refusal::NoProcess(pid));
        };
        could_act(process, view, guards, act)
    }

    /// Whether the message would come to its receiver, or else why not. Takes no memory.
    pub fn check_arrival(&self, data: &Data) -> Result<(), Refusal>
        ensures { Checked (coming_checks self.now «data».now) result }
    {
        let Some(process) = self.all.get(data.receiver) else {
            return Err(Refusal::NoProcess(data.receiver));
        };
        let Holding::Idle(_) = process.owned else {
            return Err(Refusal::Busy);
        };
        check_arrival(&process.mailbox, data)
    }

    /// Gives a process what the operation gives its maker, if there is that process and its
    /// operation is under way.
    pub fn finish(&mut self, pid: Pid, op: &Op)
        ensures { self.new ≡ receives self.old pid (given op.now) (map.get self.old pid) }
    {
        let Some(process) = self.all.get_mut(pid) else {
            return;
        };
        process.finish(self.alloc, op);
    }

    /// Takes it that the process, if there is that process, has no operation under way.
    pub fn cancel(&mut self, pid: Pid)
        ensures { self.new ≡ receives self.old pid [] (map.get self.old pid) }
    {
        let Some(process) = self.all.get_mut(pid) else {
            return;
        };
        process.cancel(self.alloc);
    }
}
