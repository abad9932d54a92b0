//! How a batch ends.
ghost use Rattle.std.specs.Prelude.{◌≡◌, ◌≤◌, ◌↔◌, ℕ, [], false, All, IsTrue, List, length, vec_capacity};
ghost use Rattle.fl_crew_model.specs.Books.{Books, Recorded};
ghost use Rattle.fl_crew_model.specs.Crews.{AllOfWorkers, IsWorker};
ghost use Rattle.fl_dealing.specs.Gathered.{IsGathered};
ghost use Rattle.fl_registrar.specs.Stopping.{IsHalt};
ghost use Rattle.fl_settling.specs.Batches.{AreBack, BatchEnds};
ghost use Rattle.fl_settling.specs.Each.{Each};
ghost use Rattle.fl_settling.specs.Numbers.{lost_by};
ghost use Rattle.fl_worker.specs.declared.worker.Worker.{Worker as WorkerValue};
ghost use Rattle.fl_manning.specs.Ended.{AreAllAnswered, IsClosed, IsKept, IsRuledOn, IsSame, said_of};

use crate::lanes::lanes_of;
use fl_dealing::entry::{Entry, Taken};
use fl_dealing::gathering::{Lane, gather};
use fl_dealing::laws::law_gathered;
use fl_registrar::registrar::Registrar;
use fl_settling::settle::settle_all;
use fl_store::keeper::Keeper;
use fl_system::answer::Fault;
use fl_worker::worker::Worker;
use std::alloc::Global;

// Whether the fault says that the registrar stopped.
fn is_halt(fault: Fault) -> bool
    ensures { IsTrue result ↔ IsHalt fault }
{
    match fault {
        Fault::Stopped | Fault::KeeperFailed => true,
        _ => false,
    }
}

// Whether the registrar ruled on the packet.
fn is_ruled(taken: &Taken) -> bool
    ensures { IsTrue result ↔ IsRuledOn taken.now }
{
    let answer = taken.answer;
    let Err(fault) = answer else {
        return true;
    };
    !is_halt(fault)
}

// Whether it ruled on each of them.
fn are_ruled(taken: &[Taken]) -> bool
    ensures { IsTrue result ↔ All IsRuledOn taken.now }
{
    taken.iter().all(is_ruled)
}

// The same, of workers in a slice.
fn settle_slice<K: Keeper>(
    alloc: Global,
    registrar: &mut Registrar<K>,
    workers: &mut [Worker],
    taken: &[Taken],
    first: u64,
) -> bool
    requires boards { All (λ w. w.desk.board ≡ registrar.old.press.board) workers.old }
    requires good { All (λ w. w.good ≤ length w.entries.items) workers.old }
    ensures closed { IsClosed registrar.old registrar.new }
    ensures runs { IsTrue result → registrar.old.stopped ≡ false }
    ensures ruled { IsTrue result → All IsRuledOn taken.now }
    ensures settled { Each IsKept workers.old workers.new }
    ensures whole { IsTrue result → (w : ℕ) → IsWorker (length workers.old) w
        → lost_by workers.new w ≡ [] }
    ensures batch { (number : ℕ) (b b' : Books) (start : List WorkerValue) →
        first ≡ length b.list → b'.list ≡ registrar.old.press.list →
        Recorded number b registrar.old.deeds b' →
        AllOfWorkers (length start) registrar.old.deeds → AreBack start workers.old →
        BatchEnds number b b' registrar.old.deeds registrar.old.failed start workers.new
        result }
{
    let failed = registrar.failed();
    let deeds = registrar.end_batch(alloc);
    if !settle_all(workers, registrar.press(), &deeds, first, failed) {
        return false;
    }
    if registrar.is_stopped() {
        return false;
    }
    are_ruled(taken)
}

/// Compares what the workers did since the list was `first` long with the record, which is closed,
/// and has their desks learn all that is published. What contradicts is given up. Whoever asked for
/// what was not done is told why: the order at which the keeper broke, if it did at one, with the
/// keeper's failure. Answers whether nothing contradicts.
pub fn settle<K: Keeper>(
    alloc: Global,
    registrar: &mut Registrar<K>,
    workers: &mut Vec<Worker>,
    taken: &[Taken],
    first: u64,
) -> bool
    requires boards { All (λ w. w.desk.board ≡ registrar.old.press.board) workers.old.items }
    requires good { All (λ w. w.good ≤ length w.entries.items) workers.old.items }
    ensures closed { IsClosed registrar.old registrar.new }
    ensures runs { IsTrue result → registrar.old.stopped ≡ false }
    ensures ruled { IsTrue result → All IsRuledOn taken.now }
    ensures settled { Each IsKept workers.old.items workers.new.items }
    ensures whole { IsTrue result → (w : ℕ) → IsWorker (length workers.old.items) w
        → lost_by workers.new.items w ≡ [] }
    ensures batch { (number : ℕ) (b b' : Books) (start : List WorkerValue) →
        first ≡ length b.list → b'.list ≡ registrar.old.press.list →
        Recorded number b registrar.old.deeds b' →
        AllOfWorkers (length start) registrar.old.deeds → AreBack start workers.old.items →
        BatchEnds number b b' registrar.old.deeds registrar.old.failed start workers.new.items
        result }
{
    settle_slice(alloc, registrar, workers.as_mut_slice(), taken, first)
}

// The same, of workers in a slice.
fn collect_slice(
    alloc: Global,
    workers: &mut [Worker],
    owners: &[u8],
    taken: Vec<Taken>,
    lanes: Vec<Lane>,
    entries: Vec<Entry>,
) -> Vec<Entry>
    requires no_lanes { lanes.items ≡ [] }
    requires no_entries { entries.items ≡ [] }
    requires for_lanes { length workers.old ≤ vec_capacity lanes }
    requires for_entries { length owners.now ≤ vec_capacity entries }
    requires answered { AreAllAnswered owners.now workers.old taken.items }
    ensures gathered { IsGathered owners.now (said_of workers.old taken.items) result.items }
    ensures same { Each IsSame workers.old workers.new }
{
    let lanes = lanes_of(alloc, workers, lanes);
    law_gathered();
    let Some(entries) = gather(owners, lanes, taken, entries) else {
        unreachable!();
    };
    entries
}

/// Takes the entries of the workers, and puts them with what was taken into one list, in the order
/// of the places, of which `owners` says whose item stands there. The lanes and the list stand in
/// the room that they are given.
pub fn collect(
    alloc: Global,
    workers: &mut Vec<Worker>,
    owners: &[u8],
    taken: Vec<Taken>,
    lanes: Vec<Lane>,
    entries: Vec<Entry>,
) -> Vec<Entry>
    requires no_lanes { lanes.items ≡ [] }
    requires no_entries { entries.items ≡ [] }
    requires for_lanes { length workers.old.items ≤ vec_capacity lanes }
    requires for_entries { length owners.now ≤ vec_capacity entries }
    requires answered { AreAllAnswered owners.now workers.old.items taken.items }
    ensures gathered { IsGathered owners.now (said_of workers.old.items taken.items) result.items }
    ensures same { Each IsSame workers.old.items workers.new.items }
{
    collect_slice(alloc, workers.as_mut_slice(), owners, taken, lanes, entries)
}
