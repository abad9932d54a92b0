//! The benches of a node.
ghost use Rattle.std.specs.Prelude.{◌≡◌, ◌⊎◌, ◌<◌, ◌≤◌, suc, length, IfOk, OnErr, IsSome};
ghost use Rattle.std.specs.Option.{option_copied};
ghost use Rattle.fl_labels.specs.declared.cap.Cap.{Cap};
ghost use Rattle.fl_ops.specs.Registry.{Listed};
ghost use Rattle.fl_bench.specs.Gifts.{finished, cancelled};
ghost use Rattle.fl_bench.specs.Process.{standing_at};
ghost use Rattle.fl_monitor.specs.Wanting.{AreAll};
ghost use Rattle.fl_system.specs.Jobs.{bench_of};
ghost use Rattle.fl_system.specs.Numbered.{item_at};
ghost use Rattle.fl_system.specs.Processes.{process_at};
ghost use Rattle.fl_system.specs.Publishes.{at_bench_of};
ghost use Rattle.fl_system.specs.State.{first_ops};
ghost use Rattle.fl_desks.specs.Benches.{benches_of, bench_at, counted, CouldAtBench, DoesAt, LacksAt};
ghost use Rattle.fl_desks.specs.Listing.{IsBehind, IsDesk, HasSeen};

use crate::listing::Listing;
use fl_bench::process::Process;
use fl_bench::standing::Standing;
use fl_jobs::answer::{Outcome, Refusal, Reply};
use fl_jobs::job::Job;
use fl_labels::cap_set::CapSet;
use fl_labels::name::NodeNumber;
use fl_labels::pid::Pid;
use fl_message::shared::Shared;
use fl_monitor::bench::Bench;
use fl_ops::op::Op;
use std::alloc::{AllocError, Global};
use std::marker::Model;

/// The benches of a node. A new process is made on each of them in turn, and stays there with its
/// children.
pub struct Benches {
    all: Vec<Bench>,
    // The place of the bench that makes the next process.
    next: u8,
}

impl Model for Benches {
    ghost use Rattle.std.specs.Prelude.{length};
    ghost use Rattle.fl_desks.specs.Benches.{BenchesState, coded_benches};
    ghost use Rattle.fl_desks.specs.parts.Turns.{AreBenches};

    ghost Value = { BenchesState };

    ghost coded = { coded_benches };

    ghost view = { λ a. record { procs = a.next; benches = a.all.items } };

    ghost invariant = { λ a. AreBenches a.next (length a.all.items) };
}

impl Drop for Benches {
    fn drop(self) {
        let Benches { all: _, next: _ } = self;
    }
}

impl Benches {
    /// So many benches without a process, at this boot of the node.
    pub fn new(alloc: Global, node: NodeNumber, boot: u32, count: u8) -> Result<Self, AllocError>
        requires node_known { 0 < node }
        requires boot_known { 0 < boot }
        ensures made { IfOk result (λ made. made ≡ benches_of node boot count) }
        ensures count { IfOk result (λ made. length made.benches ≡ count) }
    {
        let mut all = Vec::new(alloc);
        for index in 0..count {
            let bench = Bench::new(alloc, node, boot, index as u32 + 1, count as u32);
            all.push(bench)?;
        }
        Ok(Benches { all, next: 0 })
    }

    // The place of the bench of a process.
    fn home(&self, pid: Pid) -> usize
        requires { 0 < length self.now.benches }
        ensures place { suc result ≡ bench_of (length self.now.benches) pid.serial }
        ensures within { result < length self.now.benches }
    {
        // Most nodes have one bench, and a remainder costs more than a search.
        if self.all.len() == 1 {
            return 0;
        }
        pid.serial.saturating_sub(1) as usize % self.all.len()
    }

    // The place of the bench that does a job.
    fn place(&self, job: &Job) -> usize
        requires { 0 < length self.now.benches }
        ensures place { suc result ≡ bench_at self.now job.now }
        ensures within { result < length self.now.benches }
    {
        match job {
            Job::Proc => self.next as usize,
            Job::By(pid, _) => self.home(*pid),
            Job::Member(_, _) => 0,
            Job::Arrive(message) => self.home(message.receiver),
        }
    }

    /// Counts a job that is not done: a new process, were there room for it, would have been made.
    pub fn count(&mut self, job: &Job)
        requires { 0 < length self.old.benches }
        ensures { self.new ≡ counted self.old job.now }
    {
        if let Job::Proc = job {
            let next = self.next + 1;
            self.next = if (next as usize) < self.all.len() {
                next
            } else {
                0
            };
        }
    }

    /// Does a job at its bench under what the desk sees, as [`Bench::job`] has it: who asks for it
    /// or receives has its bench, a new process is made on each in turn, and a question of groups
    /// is asked at the first one. The job is taken, and what is left of it says nothing.
    pub fn job(
        &mut self,
        alloc: Global,
        listing: &mut Listing,
        desk: u8,
        job: &mut Job,
    ) -> Result<Outcome, Refusal>
        requires benches { 0 < length self.old.benches }
        requires desk { IsDesk listing.old desk }
        ensures does { (seen : _) → HasSeen listing.old desk seen
            → DoesAt (first_ops seen listing.old.published) self.old job.old result self.new }
        ensures count { length self.new.benches ≡ length self.old.benches }
        ensures same { listing.new ≡ listing.old }
    {
        let place = self.place(job);
        self.count(job);
        let bench = &mut self.all[place];
        listing.work(alloc, desk, bench, job)
    }

    /// What the job would be answered now at its bench, under the whole list, as
    /// [`Listing::could`] has it. Leaves the benches, which count nothing, and the list.
    pub fn could(
        &mut self,
        alloc: Global,
        listing: &mut Listing,
        desk: u8,
        guards: bool,
        job: &Job,
    ) -> Result<Result<Reply, Refusal>, AllocError>
        requires benches { 0 < length self.old.benches }
        requires desk { IsDesk listing.old desk }
        ensures could { IfOk result (CouldAtBench guards (Listed listing.old.published) self.old
            job.now) }
        ensures err { OnErr result (IsBehind listing.old desk) }
        ensures same { self.new ≡ self.old }
        ensures listing { listing.new ≡ listing.old }
    {
        let place = self.place(job);
        let bench = &mut self.all[place];
        listing.could(alloc, desk, bench, guards, job)
    }

    /// Ends the operation of its maker that is under way, as [`Bench::finish`] has it.
    pub fn finish(&mut self, pid: Pid, op: &Op)
        ensures procs { self.new.procs ≡ self.old.procs }
        ensures benches { self.new.benches
            ≡ at_bench_of pid (λ b. finished b pid op.now) self.old.benches }
        ensures count { length self.new.benches ≡ length self.old.benches }
    {
        if self.all.is_empty() {
            return;
        }
        let place = self.home(pid);
        let bench = &mut self.all[place];
        bench.finish(pid, op)
    }

    /// Ends the operation of the process that is under way, as [`Bench::cancel`] has it.
    pub fn cancel(&mut self, pid: Pid)
        ensures procs { self.new.procs ≡ self.old.procs }
        ensures benches { self.new.benches
            ≡ at_bench_of pid (λ b. cancelled b pid) self.old.benches }
        ensures count { length self.new.benches ≡ length self.old.benches }
    {
        if self.all.is_empty() {
            return;
        }
        let place = self.home(pid);
        let bench = &mut self.all[place];
        bench.cancel(pid)
    }

    /// The bench of this number, from 1 on, or none where there is none.
    pub fn bench(&self, number: u8) -> Option<&Bench>
        ensures { option_copied result ≡ item_at self.now.benches number }
    {
        if number == 0 {
            return None;
        }
        if number as usize > self.all.len() {
            return None;
        }
        Some(&self.all[number as usize - 1])
    }

    /// The process, or none where it does not stand here.
    pub fn process(&self, pid: Pid) -> Option<&Process>
        ensures { let bench = bench_of (length self.now.benches) pid.serial in
            option_copied result ≡ process_at (item_at self.now.benches bench) pid }
    {
        if self.all.is_empty() {
            return None;
        }
        self.all[self.home(pid)].process(pid)
    }

    /// How the process stands, for whoever notes it, as [`Bench::share`] has it.
    pub fn share(&mut self, alloc: Global, pid: Pid) -> Result<Option<Shared<Standing>>, AllocError>
        ensures ok { let bench = bench_of (length self.old.benches) pid.serial in
            IfOk result (λ made.
            made ≡ standing_at (process_at (item_at self.old.benches bench) pid)) }
        ensures err { let bench = bench_of (length self.old.benches) pid.serial in
            OnErr result (IsSome (process_at (item_at self.old.benches bench) pid)) }
        ensures same { self.new ≡ self.old }
    {
        if self.all.is_empty() {
            return Ok(None);
        }
        let place = self.home(pid);
        let bench = &mut self.all[place];
        bench.share(alloc, pid)
    }

    /// The capabilities that are wanting for a job at its bench under the whole list, as
    /// [`Listing::wanting`] has it. Leaves the list and its desks.
    pub fn wanting(
        &self,
        alloc: Global,
        listing: &mut Listing,
        desk: u8,
        guards: bool,
        job: &Job,
    ) -> Result<CapSet, AllocError>
        requires benches { 0 < length self.now.benches }
        requires desk { IsDesk listing.old desk }
        ensures ok { let V = Listed listing.old.published in
            IfOk result (AreAll (LacksAt guards V self.now job.now)) }
        ensures err { let V = Listed listing.old.published in OnErr result
            (IsBehind listing.old desk ⊎ ((c : Cap) × LacksAt guards V self.now job.now c)) }
        ensures same { listing.new ≡ listing.old }
    {
        let bench = &self.all[self.place(job)];
        listing.wanting(alloc, desk, bench, guards, job)
    }
}
