//! The workers of a batch beside their registrar.
ghost use Rattle.std.specs.Prelude.{◌≡◌, ◌≤◌, ◌+◌, ◌++◌, All, length, map, vec_len, vec_capacity};
ghost use Rattle.std.specs.Thread.{IsSync};
ghost use Rattle.fl_settling.specs.Each.{Each};
ghost use Rattle.fl_worker.specs.Done.{IsDone, IsReady};
ghost use Rattle.fl_crew_threads.specs.Receiving.{place_of, place_at, ReceivesThenDecides};
ghost use Rattle.fl_crew_threads.specs.Registers.{Registers};

use crate::lines::Lines;
use crate::ruling::{Placed, rule_all, take_all};
use crate::threads::{DoneOf, serve_all, threads_for, threads_without_orders};
use fl_dealing::entry::Taken;
use fl_jobs::job::{Act, Job};
use fl_registrar::registrar::Registrar;
use fl_store::keeper::Keeper;
use fl_worker::gate::Gate;
use fl_worker::task::Task;
use fl_worker::worker::Worker;
use std::alloc::Global;
use std::snapshot::Snapshot;
use std::sync::{Arc, Wait};
use std::thread;
use std::thread::Threads;

// Whether the registrar has to rule on the task.
fn is_order(task: &Task) -> bool {
    match &task.job {
        Job::By(_, Act::Order(_)) => true,
        _ => false,
    }
}

// Whether the registrar has to rule on some task of the worker.
fn has_order(worker: &Worker) -> bool {
    worker.tasks.iter().any(is_order)
}

/// Serves the tasks of the workers, each that has some in a thread of its own, while the registrar
/// takes the packets in this one, and then rules on their orders. Puts what came of each packet
/// behind what was taken, in the order of their places, and gives the workers back. What came of a
/// packet is what the row of the record says of it; where there is no row, the registrar was
/// stopped or had no row left, or stopped at it.
///
/// Where there is neither an order nor a packet, the registrar has nothing to do, and this thread
/// is that of a worker: so no thread is made where only one worker has tasks, nor where the gate
/// never holds and all tasks are soon done: 256 jobs without labels, say, or seven labels of 256
/// tags.
///
/// Where no thread can be made, the lines are closed first, so that no worker waits for a ruling:
/// each serves what it can, one after the other, and stops at an order. The lines serve no further
/// batch then.
///
/// Waits until all workers are done. Takes no memory but what a thread, the jobs of the workers and
/// the calls of the registrar take.
pub fn run<
    K: Keeper,
    R: Threads + Wait + Sync + Send + Copy + Drop + 'static,
    G: Gate + Send + Drop + 'static,
>(
    rt: R,
    alloc: Global,
    gate: Arc<G, Global>,
    workers: Vec<Worker>,
    registrar: &mut Registrar<K>,
    lines: &mut Lines,
    packets: Vec<Placed>,
    taken: &mut Vec<Taken>,
) -> Vec<Worker>
    requires ready { All IsReady workers.items }
    requires room { vec_len taken.old + length packets.items ≤ vec_capacity taken.old }
    ensures done { Each IsDone workers.items result.items }
    ensures rules { Registers K.custody lines.old.workers registrar.old registrar.new }
    ensures places { map place_of taken.new.items
        ≡ map place_of taken.old.items ++ map place_at packets.items }
    ensures received { ReceivesThenDecides packets.items taken.old.items taken.new.items
        registrar.old registrar.new }
{
    if packets.is_empty() && !workers.iter().any(has_order) {
        let threads = threads_without_orders(&*gate, &workers);
        let workers = serve_all(&rt, alloc, &*gate, threads, workers);
        take_all(&rt, alloc, registrar, packets, taken);
        rule_all(&rt, alloc, registrar, lines);
        return workers;
    }
    let promise = DoneOf(Snapshot::of(&workers));
    let work = move || -> Vec<Worker>
        requires { IsSync R.row × IsSync G.row × All IsReady workers.items }
        ensures { Each IsDone workers.items result.items }
    {
        let handed = workers;
        let threads = threads_for(&handed);
        serve_all(&rt, alloc, &*gate, threads, handed)
    };
    match thread::spawn_with(&rt, promise, work) {
        Ok(handle) => {
            take_all(&rt, alloc, registrar, packets, taken);
            rule_all(&rt, alloc, registrar, lines);
            handle.join(&rt)
        }
        Err(refused) => {
            lines.close();
            take_all(&rt, alloc, registrar, packets, taken);
            (refused.value)()
        }
    }
}
