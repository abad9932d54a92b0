//! Benches: processes that work under one view.
ghost use Rattle.std.specs.Option.{option_copied};
ghost use Rattle.std.specs.Prelude.{◌≡◌, ◌≢◌, ◌≤◌, ◌<◌, [], None, Some, Ok, IfOk, IfErr, OnErr, IsSome};
ghost use Rattle.std.specs.FinMap as map;
ghost use Rattle.fl_ops.specs.Registry.{Listed};
ghost use Rattle.fl_jobs.specs.declared.job.Job.TheVariants.{By};
ghost use Rattle.fl_bench.specs.Bench.{new_bench};
ghost use Rattle.fl_bench.specs.Foresight.{Could};
ghost use Rattle.fl_bench.specs.Jobs.{Does, serials_left};
ghost use Rattle.fl_bench.specs.Process.{newborn, standing_at};
ghost use Rattle.fl_bench.specs.Orderly.{IsOrderly};
ghost use Rattle.fl_monitor.specs.parts.Acts.{Births, IsAnswered};
ghost use Rattle.fl_bench.specs.Gifts.{finished, cancelled};
ghost use Rattle.fl_labels.specs.declared.cap.Cap.{Cap};
ghost use Rattle.fl_monitor.specs.Wanting.{AreAll, Lacks};

use crate::act::reply_of;
use crate::processes::Processes;
use crate::wanting::wanting;
use fl_bench::process::Process;
use fl_bench::standing::Standing;
use fl_jobs::answer::{Outcome, Refusal, Reply};
use fl_jobs::job::{Act, Job};
use fl_labels::cap_set::CapSet;
use fl_labels::name::NodeNumber;
use fl_labels::pid::Pid;
use fl_message::boxed::Boxed;
use fl_message::shared::Shared;
use fl_ops::op::Op;
use fl_ops::view::View;
use std::alloc::{AllocError, Global};
use std::marker::Model;
use std::mem::replace;

/// One of a node's benches: its processes, and the serial of the next.
#[derive(Drop)]
pub struct Bench {
    node: NodeNumber,
    boot: u32,
    next: u64,
    stride: u32,
    processes: Processes,
}

impl Model for Bench {
    ghost use Rattle.std.specs.Prelude.{◌<◌};
    ghost use Rattle.fl_bench.specs.Bench.{BenchState, coded_state};
    ghost use Rattle.fl_bench.specs.Orderly.{IsOrderly};

    ghost Value = { BenchState };

    ghost coded = { coded_state };

    ghost view = { λ b.
        record {
          node = b.node;
          boot = b.boot;
          next = b.next;
          stride = b.stride;
          processes = b.processes;
        } };

    ghost invariant = { λ b. (0 < b.node) × ((0 < b.boot) × IsOrderly (record {
      node = b.node;
      boot = b.boot;
      next = b.next;
      stride = b.stride;
      processes = b.processes;
    })) };
}

impl Bench {
    /// A bench with no process, as one of `stride` benches at this boot of the node: its processes
    /// get the serials `index`, `index + stride` and so on, so that no two benches give the same.
    /// Takes no memory.
    pub fn new(alloc: Global, node: NodeNumber, boot: u32, index: u32, stride: u32) -> Self
        requires node_known { 0 < node }
        requires boot_known { 0 < boot }
        requires index_from_one { 1 ≤ index }
        requires index_within { index ≤ stride }
        ensures { result ≡ new_bench node boot index stride }
    {
        Bench {
            node,
            boot,
            next: u64::from(index),
            stride,
            processes: Processes::new(alloc, stride),
        }
    }

    /// Each process stands under a pid that this bench gave: of its node and boot, with a serial
    /// below the next one and some strides away from it.
    pub fn law_orderly(&self)
        ensures { IsOrderly self.now }
    {
        let _stride = self.stride;
    }

    /// The process, or none where it does not stand here.
    pub fn process(&self, pid: Pid) -> Option<&Process>
        ensures { option_copied result ≡ map.get self.now.processes pid }
    {
        self.processes.get(pid)
    }

    /// The pids of all processes, rising. Fails only where there is one, and not enough memory.
    /// Costs a pass over all.
    pub fn pids(&self, alloc: Global) -> Result<Vec<Pid>, AllocError>
        ensures ok { IfOk result (λ made. made.items ≡ map.keys self.now.processes) }
        ensures err { OnErr result (map.keys self.now.processes ≢ []) }
    {
        self.processes.pids(alloc)
    }

    /// How the process stands, for whoever notes it, or none where it does not stand here. Fails
    /// only where there is not enough memory. Costs a search for the process, and what
    /// `Owned::share` does.
    pub fn share(&mut self, alloc: Global, pid: Pid) -> Result<Option<Shared<Standing>>, AllocError>
        ensures ok { IfOk result (λ made. made ≡ standing_at (map.get self.old.processes pid)) }
        ensures err { OnErr result (IsSome (map.get self.old.processes pid)) }
        ensures same { self.new ≡ self.old }
    {
        self.processes.share(alloc, pid)
    }

    // The serial of the next process, where one is left.
    fn next_serial(&self) -> Result<u32, Refusal>
        ensures ok { IfOk result (λ serial. (serial ≡ self.now.next) × serials_left self.now None) }
        ensures err { IfErr result (λ f. serials_left self.now (Some f)) }
    {
        let Ok(serial) = u32::try_from(self.next) else {
            return Err(Refusal::NamesSpent);
        };
        Ok(serial)
    }

    // A new process, under the next serial, where there was memory for it.
    fn bear(&mut self, process: Result<Boxed<Process>, AllocError>) -> Result<Outcome, Refusal>
        ensures { Births self.old process result self.new }
    {
        let serial = self.next_serial()?;
        let Ok(process) = process else {
            return Err(Refusal::Memory);
        };
        let pid = Pid {
            node: self.node,
            boot: self.boot,
            serial,
        };
        let Ok(()) = self.processes.insert(pid, process) else {
            return Err(Refusal::Memory);
        };
        self.next += u64::from(self.stride);
        Ok(Outcome::Reply(Reply::Made(pid)))
    }

    // A new process, with nothing.
    fn proc(&mut self, alloc: Global) -> Result<Outcome, Refusal>
        ensures { Births self.old (Ok newborn) result self.new }
    {
        self.bear(Boxed::new(alloc, Process::new(alloc)))
    }

    // Has the process bear one, or ends it.
    fn live<V: View>(
        &mut self,
        alloc: Global,
        view: &mut V,
        pid: Pid,
        act: Act,
    ) -> Result<Outcome, Refusal>
        requires { ¬ IsAnswered act }
        ensures does { Does (Listed (V.list view.old)) self.old (By pid act) result self.new }
        ensures same { view.new ≡ view.old }
    {
        match act {
            Act::Spawn(caps) => {
                let child = self.processes.spawn(alloc, view, pid, caps.into_inner())?;
                self.bear(child)
            }
            Act::Exit => {
                self.processes.end(pid)?;
                Ok(Outcome::Reply(Reply::Done))
            }
            _ => unreachable!("a process does it by itself"),
        }
    }

    /// Does a job under the view's registry, or says why not and leaves the bench as it was. The
    /// reasons, in the order in which they are looked for:
    ///
    /// - `NoProcess`: who asks, or is to receive a message, does not stand here.
    /// - `Busy`: an operation of that process is under way: it was ordered, and neither finished
    ///   nor cancelled.
    /// - `LabelTooLong`: a label that is asked for has more than 256 tags.
    /// - `EndpointsFull`: the process has 64 endpoints.
    /// - `NoEndpoint`: the endpoint is not open.
    /// - `NotWritable`, `NotReadable`: it is not for sending from, or not for receiving at.
    /// - `MissingCap`: the least capability that the job takes and that is not in effect for who
    ///   asks. The change of a label takes one for each tag that it gains or loses, a put the right
    ///   to grow the group, and the capability itself, a new login its capability, a birth what the
    ///   child is to own, and a message what it brings.
    /// - `NotOwned`: the capability that is to be dropped is not owned.
    /// - `UnsafeEndpoint`: the least endpoint that would not be safe, with its least tag that may
    ///   not be both added and removed: the one that is opened or tuned, and of all of them where a
    ///   label changes or a capability is dropped.
    /// - `NoLogin` and `WrongSecret`: there is no login of the name, or the least one has another
    ///   secret.
    /// - `Secrecy`: the least tag of the secrecy that who lets bytes out may not both add and
    ///   remove, or that a message has and the receiver's endpoint has not.
    /// - `Integrity`: the least tag of integrity that the receiver's endpoint has and a message has
    ///   not.
    /// - `InboxFull`: 256 messages wait for the receiver.
    /// - `NamesSpent`: the next process would get a serial above 4,294,967,295.
    /// - `Memory`: all of this passed, and there was not enough for a new process, an order, an
    ///   entry for what is not owned yet, a new endpoint, or a message that goes or comes. No other
    ///   job takes memory.
    ///
    /// An order becomes the body of an operation and its maker, whose operation is then under way,
    /// to be finished or cancelled: there is room for what it gives. The change of a label, a drop,
    /// a birth, an emission, an endpoint and a message ask the view once for each tag or capability
    /// that they take, and twice for a tag that has to be both added and removed; any other job
    /// asks it two questions at most. A message that comes looks along the labels of both ends.
    ///
    /// What the job brings is taken out of it, so that what is left of it says nothing.
    pub fn job<V: View>(
        &mut self,
        alloc: Global,
        view: &mut V,
        job: &mut Job,
    ) -> Result<Outcome, Refusal>
        ensures does { Does (Listed (V.list view.old)) self.old job.old result self.new }
        ensures same { view.new ≡ view.old }
    {
        match job {
            Job::Proc => self.proc(alloc),
            Job::By(pid, act @ (Act::Spawn(_) | Act::Exit)) => {
                self.live(alloc, view, *pid, replace(act, Act::Exit))
            }
            Job::By(pid, act) => self.processes.act(alloc, view, *pid, act),
            Job::Member(root, cap) => Ok(Outcome::Reply(reply_of(view.reaches(*root, *cap)))),
            Job::Arrive(_) => self.processes.arrive(replace(job, Job::Proc)),
        }
    }

    /// What the job would be answered now, where orders are guarded or not, word for word, but for
    /// want of memory: why it would be refused, for the reasons of `job`, or else of a question its
    /// answer, and of any other job `Reply::Done`. A guarded order is refused first for what an
    /// emission of its process is refused for.
    ///
    /// Leaves the bench and the view. Takes no memory. Costs what the checks of `job` do, and twice
    /// the moves of a drop.
    pub fn could<V: View>(
        &mut self,
        view: &mut V,
        guards: bool,
        job: &Job,
    ) -> Result<Reply, Refusal>
        ensures could { Could guards (Listed (V.list view.old)) self.old job.now result }
        ensures same { self.new ≡ self.old }
        ensures view { view.new ≡ view.old }
    {
        match job {
            Job::Proc => {
                self.next_serial()?;
                Ok(Reply::Done)
            }
            Job::By(pid, act) => self.could_by(view, guards, *pid, act),
            Job::Member(root, cap) => Ok(reply_of(view.reaches(*root, *cap))),
            Job::Arrive(message) => {
                self.processes.check_arrival(message)?;
                Ok(Reply::Done)
            }
        }
    }

    // What the process would be answered to the act.
    fn could_by<V: View>(
        &mut self,
        view: &mut V,
        guards: bool,
        pid: Pid,
        act: &Act,
    ) -> Result<Reply, Refusal>
        ensures could { Could guards (Listed (V.list view.old)) self.old (By pid act.now) result }
        ensures same { self.new ≡ self.old }
        ensures view { view.new ≡ view.old }
    {
        let reply = self.processes.could_act(view, guards, pid, act)?;
        match act {
            Act::Spawn(_) => {
                self.next_serial()?;
                Ok(reply)
            }
            _ => Ok(reply),
        }
    }

    /// The capabilities that are wanting for a job: those that it takes and that its process has
    /// not in effect. The change of a label, an order, a birth and a message take what they do for
    /// `job`; an emission takes both capabilities of each tag of the secrecy, and so does an order
    /// where orders are guarded. None is wanting where the process does not stand here, or an
    /// operation of it is under way, since no capability would help.
    ///
    /// Fails only where one is wanting, and there is not enough memory. Leaves the view and the
    /// bench as they were. Asks the view one question for each capability that the job takes.
    pub fn wanting<V: View>(
        &self,
        alloc: Global,
        view: &mut V,
        guards: bool,
        job: &Job,
    ) -> Result<CapSet, AllocError>
        ensures ok { let V = Listed (V.list view.old) in
            IfOk result (AreAll (Lacks guards V self.now job.now)) }
        ensures err { let V = Listed (V.list view.old) in
            OnErr result ((c : Cap) × Lacks guards V self.now job.now c) }
        ensures same { view.new ≡ view.old }
    {
        let Job::By(pid, act) = job else {
            return Ok(CapSet::new(alloc));
        };
        match self.processes.get(*pid) {
            Some(process) => wanting(alloc, view, guards, process, act),
            None => Ok(CapSet::new(alloc)),
        }
    }

    /// Ends the operation of its maker that is under way, and gives what it gives: of a tag, to add
    /// and to remove it; of a group, to use and to grow it; of a put or a login, nothing. Where no
    /// operation of that process is under way, or it does not stand here, nothing changes. Takes no
    /// memory.
    pub fn finish(&mut self, pid: Pid, op: &Op)
        ensures { self.new ≡ finished self.old pid op.now }
    {
        self.processes.finish(pid, op)
    }

    /// Ends the operation of the process that is under way, and gives nothing: the bench is as
    /// before the order. Where there is none, nothing changes. Takes no memory.
    pub fn cancel(&mut self, pid: Pid)
        ensures { self.new ≡ cancelled self.old pid }
    {
        self.processes.cancel(pid)
    }
}
