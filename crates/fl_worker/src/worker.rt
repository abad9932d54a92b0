//! A worker, and how it serves its tasks.
ghost use Rattle.std.specs.Prelude.{◌≡◌, ◌<◌, ◌≤◌, ◌+◌, [], ◌∷◌, ◌++◌, List, All};
ghost use Rattle.std.specs.Prelude.{MatchBool, MatchResult, OnOk, OnErr, length, vec_len, vec_capacity};
ghost use Rattle.std.specs.Thread.{IsSync};
ghost use Rattle.fl_ops.specs.declared.op.Op.{Op};
ghost use Rattle.fl_bench.specs.Bench.{BenchState};
ghost use Rattle.fl_replica.specs.Boards.{Front};
ghost use Rattle.fl_crew_model.specs.Served.{Served};
ghost use Rattle.fl_crew_model.specs.declared.record.Entry.{Entry as EntryValue};
ghost use Rattle.fl_worker.specs.Done.{Done, IsDone, IsReady};
ghost use Rattle.fl_worker.specs.Stops.{IsAnswered};
ghost use Rattle.fl_worker.specs.parts.Turns.{seated};
ghost use Rattle.fl_worker.specs.declared.task.Task.{Task as TaskValue};
ghost use Rattle.fl_worker.specs.declared.worker.Worker.{Worker as WorkerValue};

use crate::ends::Ends;
use crate::gate::{Gate, Gated};
use crate::serving::{serve_one, undone};
use crate::task::Task;
use core::mem::replace_with;
use fl_crew_model::record::Entry;
use fl_jobs::job::let_go;
use fl_monitor::bench::Bench;
use fl_replica::desk::Desk;
use fl_system::answer::Fault;
use std::alloc::{AllocError, Global};
use std::snapshot::Snapshot;
use std::sync::Wait;

/// A worker of a crew. Between batches it keeps all but its tasks and its entries.
#[derive(Drop)]
pub struct Worker {
    /// From 1 to 16.
    pub number: u8,
    pub bench: Bench,
    pub desk: Desk,
    pub ends: Ends,
    /// What it is to do.
    pub tasks: Vec<Task>,
    /// What it did, a task each.
    pub entries: Vec<Entry>,
    /// How many of its entries, from the first on, are of jobs that were done: all of them, where
    /// it has not stopped.
    pub good: usize,
}

impl Worker {
    /// A worker that has nothing to do. Takes no memory.
    pub fn new(alloc: Global, number: u8, bench: Bench, desk: Desk, ends: Ends) -> Worker
        ensures ready { IsReady result }
        ensures tasks { result.tasks.items ≡ [] }
        ensures number { result.number ≡ number }
        ensures bench { result.bench ≡ bench }
        ensures desk { result.desk ≡ desk }
    {
        Worker {
            number,
            bench,
            desk,
            ends,
            tasks: Vec::new(alloc),
            entries: Vec::new(alloc),
            good: 0,
        }
    }

    /// Whether it stopped at one of its tasks, and gave up those behind it.
    pub fn is_stopped(&self) -> bool
        ensures { MatchBool result (self.now.good < vec_len self.now.entries)
            (vec_len self.now.entries ≤ self.now.good) }
    {
        self.good < self.entries.len()
    }

    /// Gives it these tasks, and room for their entries, in place of what it has. Fails only where
    /// it lacks room and there is not enough memory for it, and then it has nothing to do.
    pub fn prepare(&mut self, alloc: Global, tasks: Vec<Task>) -> Result<(), AllocError>
        ensures ready { IsReady self.new }
        ensures tasks { OnOk result (self.new.tasks.items ≡ tasks.items) }
        ensures none { OnErr result (self.new.tasks.items ≡ []) }
        ensures full { OnErr result (vec_capacity self.old.entries < vec_len tasks) }
        ensures number { self.new.number ≡ self.old.number }
        ensures bench { self.new.bench ≡ self.old.bench }
        ensures desk { self.new.desk ≡ self.old.desk }
    {
        self.tasks = Vec::new(alloc);
        self.entries.clear();
        self.good = 0;
        self.entries.reserve(tasks.len())?;
        self.tasks = tasks;
        Ok(())
    }
}

// Puts the entry at the end, and counts it where it is right.
fn keep(entries: &mut Vec<Entry>, good: usize, served: Result<Entry, Entry>) -> usize
    requires room { vec_len entries.old < vec_capacity entries.old }
    requires some { good ≤ vec_len entries.old }
    ensures entry { MatchResult served
        (λ e. (entries.new.items ≡ entries.old.items ++ e ∷ []) × (result ≡ good + 1))
        (λ e. (entries.new.items ≡ entries.old.items ++ e ∷ []) × (result ≡ good)) }
    ensures len { vec_len entries.new ≡ vec_len entries.old + 1 }
    ensures capacity { vec_capacity entries.new ≡ vec_capacity entries.old }
{
    match served {
        Ok(entry) => {
            entries.push_reserved(entry);
            good + 1
        }
        Err(entry) => {
            entries.push_reserved(entry);
            good
        }
    }
}

// A worker that is at work, but for its desk, which each look takes and gives back.
struct Seat {
    number: u8,
    bench: Bench,
    ends: Ends,
    tasks: Vec<Task>,
    entries: Vec<Entry>,
    good: usize,
}

impl Seat {
    // Serves the task of a worker that has not stopped.
    fn take_turn<R: Wait>(&mut self, rt: &R, alloc: Global, desk: Desk, task: Task) -> Desk
        requires room { vec_len self.old.entries < vec_capacity self.old.entries }
        requires goes_on { self.old.good ≡ vec_len self.old.entries }
        ensures done { (old : WorkerValue) (ts : List TaskValue) →
            Done old ts (seated self.old desk)
            → Done old (ts ++ task ∷ []) (seated self.new result) }
        ensures len { vec_len self.new.entries ≡ vec_len self.old.entries + 1 }
        ensures capacity { vec_capacity self.new.entries ≡ vec_capacity self.old.entries }
    {
        let Seat {
            number: _,
            bench,
            ends,
            tasks: _,
            entries,
            good,
        } = self;
        let (desk, served) = serve_one(rt, alloc, desk, bench, ends, task);
        *good = keep(entries, *good, served);
        desk
    }

    // Gives up the task of a worker that has stopped, whose desk saw so much.
    #[inline(never)]
    fn give_up(&mut self, seen: u64, task: Task)
        requires room { vec_len self.old.entries < vec_capacity self.old.entries }
        requires stopped { self.old.good < vec_len self.old.entries }
        ensures done { (old : WorkerValue) (ts : List TaskValue) (desk : Front) →
            seen ≡ length desk.list → Done old ts (seated self.old desk)
            → Done old (ts ++ task ∷ []) (seated self.new desk) }
        ensures len { vec_len self.new.entries ≡ vec_len self.old.entries + 1 }
        ensures capacity { vec_capacity self.new.entries ≡ vec_capacity self.old.entries }
    {
        let Task { place, job } = task;
        let asked = Snapshot::of(&job);
        let_go(job);
        let entry = undone(place, asked, seen, Fault::Stopped);
        self.entries.push_reserved(entry);
    }

    // Serves a task, or gives it up where the worker has stopped.
    fn turn<R: Wait, G: Gate>(
        &mut self,
        rt: &R,
        alloc: Global,
        gate: &Gated<'_, G>,
        desk: Desk,
        task: Task,
    ) -> Desk
        requires room { vec_len self.old.entries < vec_capacity self.old.entries }
        requires some { self.old.good ≤ vec_len self.old.entries }
        ensures done { (old : WorkerValue) (ts : List TaskValue) →
            Done old ts (seated self.old desk)
            → Done old (ts ++ task ∷ []) (seated self.new result) }
        ensures len { vec_len self.new.entries ≡ vec_len self.old.entries + 1 }
        ensures capacity { vec_capacity self.new.entries ≡ vec_capacity self.old.entries }
    {
        if self.good < self.entries.len() {
            self.give_up(desk.seen(), task);
            return desk;
        }
        let place = task.place;
        let desk = gate.before(desk, place);
        let desk = self.take_turn(rt, alloc, desk, task);
        gate.after(desk, place)
    }
}

/// Who asked for a job that was done is not told that the keeper broke, nor that the node is
/// stopped: either stands in an entry only from where the worker stopped on.
pub fn law_answered()
    ensures { (list : List Op) (b b' : BenchState) (es : List EntryValue) →
        Served list b es b' → All IsAnswered es }
{}

// Serves all tasks.
fn serve_all<R: Wait, G: Gate>(rt: &R, alloc: Global, gate: &G, worker: Worker) -> Worker
    requires { IsReady worker }
    ensures { IsDone worker result }
{
    let Worker {
        number,
        bench,
        mut desk,
        ends,
        tasks: given,
        entries,
        good,
    } = worker;
    let mut seat = Seat {
        number,
        bench,
        ends,
        tasks: Vec::new(alloc),
        entries,
        good,
    };
    let gate = Gated::new(gate);
    for task in given {
        desk = seat.turn(rt, alloc, &gate, desk, task);
    }
    let Seat {
        number,
        bench,
        ends,
        tasks,
        entries,
        good,
    } = seat;
    Worker {
        number,
        bench,
        desk,
        ends,
        tasks,
        entries,
        good,
    }
}

/// Serves the tasks of the worker in turn, and then tells the registrar that it is done. For each
/// job one look of the desk, and the job at the bench under that look; an order is sent to the
/// registrar once the look has ended, and is finished, left due or cancelled as it is ruled.
///
/// The worker stops where its press is gone, where the registrar cannot be asked or cannot rule, or
/// where a ruling is not on its order: that order is cancelled, and who asked is told
/// `KeeperFailed` where the registrar said so, and else `Stopped`. Each job behind it is answered
/// `Stopped` and not done, with no call of the gate.
///
/// Waits for the registrar at each order. Takes no memory but what [`Bench::job`] takes.
///
/// [`Bench::job`]: fl_monitor::bench::Bench::job
pub fn serve<R: Wait, G: Gate>(rt: &R, alloc: Global, gate: &G, worker: &mut Worker)
    requires { IsReady worker.old }
    ensures { IsDone worker.old worker.new }
{
    replace_with(
        worker,
        rt,
        |worker: Worker, rt: &R| -> (Worker, ())
            requires { IsSync G.row × IsReady worker }
            ensures { IsDone worker result.0 }
        { (serve_all(rt, alloc, gate, worker), ()) },
    );
    worker.ends.finish(rt);
}
