//! The workers of a batch, each in a thread of its own.
ghost use Rattle.std.specs.Prelude.{◌≡◌, ◌<◌, ℕ, length, All, slice_index_or};
ghost use Rattle.std.specs.Thread.{IsSync};
ghost use Rattle.fl_worker.specs.Done.{IsReady, IsDone};
ghost use Rattle.fl_settling.specs.Each.{Each};

use crate::weight::is_light;
use fl_worker::gate::Gate;
use fl_worker::worker::{Worker, serve};
use std::alloc::Global;
use std::snapshot::Snapshot;
use std::sync::Wait;
use std::thread;
use std::thread::{Promise, Threads};

// How many workers there are at most.
const WORKERS: usize = 16;

/// The promise of the workers: each has done its tasks.
#[derive(Drop)]
pub(crate) struct DoneOf(pub(crate) Snapshot<Vec<Worker>>);

impl Promise<Vec<Worker>> for DoneOf {
    ghost use Rattle.fl_settling.specs.Each.{Each};
    ghost use Rattle.fl_worker.specs.Done.{IsDone};

    ghost kept_by = { λ p r. Each IsDone p.0.value.items r.items };
}

// Whether the worker has tasks.
fn is_busy(worker: &Worker) -> bool {
    !worker.tasks.is_empty()
}

/// In how many threads the workers do their tasks: in one where no two have some.
pub(crate) fn threads_for(workers: &[Worker]) -> usize
    ensures { 0 < result }
{
    if workers.iter().filter(|worker| is_busy(worker)).count() < 2 {
        1
    } else {
        WORKERS
    }
}

/// The same where none of them is an order: in one also where all are soon done, and none of the
/// gate's calls waits for another.
pub(crate) fn threads_without_orders<G: Gate>(gate: &G, workers: &[Worker]) -> usize
    ensures { 0 < result }
{
    if gate.never_holds() && is_light(workers) {
        1
    } else {
        threads_for(workers)
    }
}

// Serves the tasks of each worker, in a thread for each, or all in this one where it is to be one.
fn serve_each<R: Threads + Wait + Sync, G: Gate>(
    rt: &R,
    alloc: Global,
    gate: &G,
    threads: usize,
    workers: &mut [Worker],
)
    requires ready { All IsReady workers.old }
    requires some { 0 < threads }
    ensures { Each IsDone workers.old workers.new }
{
    thread::for_each_mut(
        rt,
        workers,
        threads,
        &|_: usize, worker: &mut Worker|
            requires { IsSync G.row × IsReady worker.old }
            ensures { IsDone worker.old worker.new }
        { serve(rt, alloc, gate, worker) },
    );
}

/// The same of workers that are handed over and come back.
pub(crate) fn serve_all<R: Threads + Wait + Sync, G: Gate>(
    rt: &R,
    alloc: Global,
    gate: &G,
    threads: usize,
    workers: Vec<Worker>,
) -> Vec<Worker>
    requires ready { All IsReady workers.items }
    requires some { 0 < threads }
    ensures { Each IsDone workers.items result.items }
{
    let mut workers = workers;
    serve_each(rt, alloc, gate, threads, workers.as_mut_slice());
    workers
}
