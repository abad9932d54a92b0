//! The workers of a crew, once they are back.
ghost use Rattle.std.specs.Prelude.{◌≡◌, ◌≤◌, ◌↔◌, ℕ, List, IsTrue, length, All};
ghost use Rattle.fl_replica.specs.Boards.{StartsWith};
ghost use Rattle.fl_crew_model.specs.Books.{Books, Recorded};
ghost use Rattle.fl_crew_model.specs.Crews.{AllOfWorkers};
ghost use Rattle.fl_worker.specs.declared.worker.Worker.{Worker as WorkerValue};
ghost use Rattle.fl_settling.specs.Each.{Each};
ghost use Rattle.fl_settling.specs.Settled.{IsSettled, IsFine};
ghost use Rattle.fl_settling.specs.Batches.{AreBack, BatchEnds};

use crate::comparing::compare;
use crate::giving_up::give_up;
use fl_crew_model::record::{Deed, FailedOrder};
use fl_replica::desk::Desk;
use fl_replica::press::Press;
use fl_worker::worker::Worker;

// The desk learns all that is published. Whether that is just what it knows then.
fn catch_up(desk: &mut Desk, press: &Press) -> bool
    requires { desk.old.board ≡ press.now.board }
    ensures board { desk.new.board ≡ desk.old.board }
    ensures later { StartsWith desk.new.list desk.old.list }
    ensures told { StartsWith desk.new.list press.now.list }
    ensures all { IsTrue result ↔ (desk.new.list ≡ press.now.list) }
{
    desk.learn(press.tell());
    desk.seen() == press.list().len() as u64
}

// Settles one worker.
fn settle(
    worker: &mut Worker,
    press: &Press,
    deeds: &[Deed],
    first: u64,
    failed: Option<FailedOrder>,
) -> bool
    requires board { worker.old.desk.board ≡ press.now.board }
    requires good { worker.old.good ≤ length worker.old.entries.items }
    ensures settled { IsSettled first press.now.list deeds.now failed worker.old worker.new }
    ensures fine { IsTrue result
        ↔ IsFine first press.now.list deeds.now failed worker.old worker.new }
{
    let is_caught_up = catch_up(&mut worker.desk, press);
    let found = compare(worker, deeds, first, failed);
    if !is_caught_up || !found.is_met {
        give_up(worker, 0, failed);
        return false;
    }
    give_up(worker, found.front, failed);
    found.is_whole
}

/// Settles the workers of a crew, which are back from a batch: the list was `first` long before it,
/// these are the deeds of the registrar since, and `failed` is the order at which its keeper broke,
/// if it did at one.
///
/// The desk of each worker learns all that is published, and its good entries are compared with the
/// record. From the first one on that contradicts it they are given up, with all behind them; all
/// of them are, where the desk does not know just what is published then, or where the keeper broke
/// at an order of the worker that is not just the one behind what agrees with the record. Who asked
/// for what is given up is told `KeeperFailed` where the keeper broke at that order, and else
/// `Stopped`. It goes on to the last worker.
///
/// Returns whether all is well: each worker has done all its tasks, its entries agree with the
/// record, no decision on its orders is left, and those are on later and later places. Then nothing
/// is changed but what the desks know.
///
/// Takes as long as there are entries, and deeds for each worker. Takes no memory.
pub fn settle_all(
    workers: &mut [Worker],
    press: &Press,
    deeds: &[Deed],
    first: u64,
    failed: Option<FailedOrder>,
) -> bool
    requires boards { All (λ w. w.desk.board ≡ press.now.board) workers.old }
    requires good { All (λ w. w.good ≤ length w.entries.items) workers.old }
    ensures settled { Each (IsSettled first press.now.list deeds.now failed) workers.old
        workers.new }
    ensures fine { IsTrue result
        ↔ Each (IsFine first press.now.list deeds.now failed) workers.old workers.new }
    // What it means for the batch, where the workers and the registrar kept what they promise.
    ensures batch { (number : ℕ) (b b' : Books) (start : List WorkerValue) →
        first ≡ length b.list → b'.list ≡ press.now.list → Recorded number b deeds.now b' →
        AllOfWorkers (length start) deeds.now → AreBack start workers.old →
        BatchEnds number b b' deeds.now failed start workers.new result }
{
    let mut fine = true;
    for worker in workers.iter_mut() {
        fine &= settle(worker, press, deeds, first, failed);
    }
    fine
}
