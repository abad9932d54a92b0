//! The registrar's side of a batch, which stays in the thread of who called.
ghost use Rattle.std.specs.Prelude.{◌≡◌, ◌≤◌, ◌+◌, ◌++◌, ◌↔◌, IsTrue, length, map, vec_len};
ghost use Rattle.std.specs.Prelude.{vec_capacity};
ghost use Rattle.fl_crew_model.specs.Crews.{IsWorker};
ghost use Rattle.fl_registrar.specs.Ruling.{Awaits};
ghost use Rattle.fl_crew_threads.specs.Receiving.{place_of, place_at, Takes, Receives, Decides};
ghost use Rattle.fl_crew_threads.specs.Registers.{Registers};
ghost use Rattle.fl_crew_threads.specs.Told.{IsTold, IsToldThere};

use crate::lines::Lines;
use fl_dealing::entry::Taken;
use fl_registrar::parcel::Parcel;
use fl_registrar::registrar::Registrar;
use fl_store::keeper::Keeper;
use fl_system::answer::Fault;
use fl_worker::ask::{Ordered, Ruled};
use fl_worker::hearing::Heard;
use std::alloc::Global;
use std::sync::Wait;

/// A packet for the registrar, and its place in the batch.
#[derive(Drop)]
pub struct Placed {
    pub place: usize,
    pub parcel: Parcel,
}

// Takes a packet, and says what came of it.
fn take<K: Keeper, R: Wait>(
    rt: &R,
    alloc: Global,
    registrar: &mut Registrar<K>,
    placed: Placed,
) -> Taken
    ensures rules { (workers : _) → Registers K.custody workers registrar.old registrar.new }
    ensures place { result.place ≡ placed.place }
    ensures seen { result.seen ≡ length registrar.old.press.list }
    ensures received { Takes placed result registrar.old registrar.new }
{
    let Placed { place, parcel } = placed;
    let seen = registrar.press().list().len() as u64;
    match registrar.receive(rt, alloc, place, parcel) {
        Ok(receipt) => {
            let answer = receipt.answer;
            Taken {
                place,
                answer,
                seen,
            }
        }
        Err(fault) => {
            let answer = Err(fault);
            Taken {
                place,
                answer,
                seen,
            }
        }
    }
}

/// Takes the packets of a batch in turn, and puts what came of each behind what was taken, where
/// there is room for all.
pub(crate) fn take_all<K: Keeper, R: Wait>(
    rt: &R,
    alloc: Global,
    registrar: &mut Registrar<K>,
    packets: Vec<Placed>,
    taken: &mut Vec<Taken>,
)
    requires { vec_len taken.old + length packets.items ≤ vec_capacity taken.old }
    ensures rules { (workers : _) → Registers K.custody workers registrar.old registrar.new }
    ensures places { map place_of taken.new.items
        ≡ map place_of taken.old.items ++ map place_at packets.items }
    ensures received { Receives packets.items taken.old.items taken.new.items registrar.old
        registrar.new }
{
    for placed in packets {
        let it = take(rt, alloc, registrar, placed);
        taken.push_reserved(it);
    }
}

// Rules on an order of this worker.
fn rule<K: Keeper, R: Wait>(
    rt: &R,
    alloc: Global,
    registrar: &mut Registrar<K>,
    worker: u8,
    ordered: Ordered,
) -> Ruled
    ensures rules { (workers : _) → IsWorker workers worker
        → Registers K.custody workers registrar.old registrar.new }
    ensures told { IsTold registrar.old registrar.new worker ordered.place result }
    ensures stopped { (result ≡ Ruled.Failed Fault.Stopped)
        ↔ (¬ Awaits registrar.old worker ordered.place ordered.body) }
    ensures same { result ≡ Ruled.Failed Fault.Stopped → registrar.new ≡ registrar.old }
    ensures decides { Decides registrar.old registrar.new }
{
    let Ordered { place, body, pid } = ordered;
    match registrar.decide(rt, alloc, worker, place, body, pid) {
        Ok(ruling) => Ruled::Ruling(ruling),
        Err(fault) => Ruled::Failed(fault),
    }
}

// Whether it is the number of one of so many workers.
fn is_worker(workers: u8, worker: u8) -> bool
    ensures { IsTrue result ↔ IsWorker workers worker }
{
    0 < worker && worker <= workers
}

// Rules on an order for the one of so many workers whose order is awaited at its place. `Stopped`,
// and nothing is done, where that is nobody, or the order is another one.
fn rule_there<K: Keeper, R: Wait>(
    rt: &R,
    alloc: Global,
    registrar: &mut Registrar<K>,
    workers: u8,
    ordered: Ordered,
) -> Ruled
    ensures rules { Registers K.custody workers registrar.old registrar.new }
    ensures told { IsToldThere workers registrar.old registrar.new ordered.place ordered.body
        result }
    ensures decides { Decides registrar.old registrar.new }
{
    let Some(worker) = registrar.worker_at(ordered.place) else {
        return Ruled::Failed(Fault::Stopped);
    };
    if !is_worker(workers, worker) {
        return Ruled::Failed(Fault::Stopped);
    }
    rule(rt, alloc, registrar, worker, ordered)
}

/// Rules on orders until each worker is done, or all of them are gone, and answers each on the end
/// that came with it.
///
/// No order is left unheard, on which its worker would wait for ever: a worker tells that it is
/// done behind its orders, and only once all have told so this ends.
pub(crate) fn rule_all<K: Keeper, R: Wait>(
    rt: &R,
    alloc: Global,
    registrar: &mut Registrar<K>,
    lines: &mut Lines,
)
    ensures rules { Registers K.custody lines.old.workers registrar.old registrar.new }
    ensures decides { Decides registrar.old registrar.new }
{
    let workers = lines.workers;
    let mut working = workers;
    for _ in rt.forever() {
        if working == 0 {
            return;
        }
        let Some(heard) = lines.hearing.hear(rt) else {
            return;
        };
        match heard {
            Heard::Done => working -= 1,
            Heard::Order(ordered, unanswered) => {
                let ruled = rule_there(rt, alloc, registrar, workers, ordered);
                unanswered.answer(rt, ruled);
            }
        }
    }
}
