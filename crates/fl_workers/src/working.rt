//! The workers of a crew do their tasks, while the registrar rules on their orders.
ghost use Rattle.std.specs.Prelude.{◌≡◌, ◌≤◌, ◌+◌, ◌++◌, All, length, map, vec_len, vec_capacity};
ghost use Rattle.fl_settling.specs.Each.{Each};
ghost use Rattle.fl_worker.specs.Done.{IsDone, IsReady};
ghost use Rattle.fl_crew_threads.specs.Receiving.{place_of, place_at, ReceivesThenDecides};
ghost use Rattle.fl_crew_threads.specs.Registers.{Registers};

use core::mem::replace;
use fl_crew_threads::lines::Lines;
use fl_crew_threads::ruling::Placed;
use fl_crew_threads::running::run;
use fl_dealing::entry::Taken;
use fl_registrar::registrar::Registrar;
use fl_store::keeper::Keeper;
use fl_worker::gate::Gate;
use fl_worker::worker::Worker;
use std::alloc::Global;
use std::sync::{Arc, Wait};
use std::thread::Threads;

/// Has the workers do their tasks, each in a thread of its own, while the registrar takes the
/// packets and rules on their orders. Puts what came of each packet behind what was taken.
pub(crate) fn work<
    K: Keeper,
    R: Threads + Wait + Sync + Send + Copy + Drop + 'static,
    G: Gate + Send + Drop + 'static,
>(
    rt: R,
    alloc: Global,
    gate: Arc<G, Global>,
    workers: &mut Vec<Worker>,
    registrar: &mut Registrar<K>,
    lines: &mut Lines,
    packets: Vec<Placed>,
    taken: &mut Vec<Taken>,
)
    requires ready { All IsReady workers.old.items }
    requires room { vec_len taken.old + length packets.items ≤ vec_capacity taken.old }
    ensures done { Each IsDone workers.old.items workers.new.items }
    ensures rules { Registers K.custody lines.old.workers registrar.old registrar.new }
    ensures places { map place_of taken.new.items
        ≡ map place_of taken.old.items ++ map place_at packets.items }
    ensures received { ReceivesThenDecides packets.items taken.old.items taken.new.items
        registrar.old registrar.new }
{
    let handed = replace(workers, Vec::new(alloc));
    *workers = run(rt, alloc, gate, handed, registrar, lines, packets, taken);
}
