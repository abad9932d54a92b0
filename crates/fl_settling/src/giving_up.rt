//! Entries that are given up.
ghost use Rattle.std.specs.Prelude.{◌≡◌, ◌≤◌, length, map};
ghost use Rattle.fl_settling.specs.Cut.{fault_at, given_up, given_up_from};

use fl_crew_model::record::{Entry, FailedOrder, Told};
use fl_system::answer::Fault;
use fl_worker::worker::Worker;

// What is told of the job at this place, which the worker did not do.
fn fault_of(failed: Option<FailedOrder>, worker: u8, place: usize) -> Fault
    ensures { result ≡ fault_at failed worker place }
{
    let Some(order) = failed else {
        return Fault::Stopped;
    };
    if order.worker == worker && order.place == place {
        Fault::KeeperFailed
    } else {
        Fault::Stopped
    }
}

// Tells whoever asked for any of these jobs of the worker that it was not done, and why.
fn give_up_all(entries: &mut [Entry], worker: u8, failed: Option<FailedOrder>)
    ensures { entries.new ≡ map (given_up failed worker) entries.old }
{
    for entry in entries.iter_mut() {
        entry.told = Told::Refused(fault_of(failed, worker, entry.place));
    }
}

// So many entries of the worker stay good, and the others are given up: that of the order at which
// the keeper broke, if it did at one of these, with the keeper's failure. Takes as long as there
// are others.
pub(crate) fn give_up(worker: &mut Worker, good: usize, failed: Option<FailedOrder>)
    requires { good ≤ length worker.old.entries.items }
    ensures good { worker.new.good ≡ good }
    ensures entries { worker.new.entries.items
        ≡ given_up_from failed worker.old.number good worker.old.entries.items }
    ensures number { worker.new.number ≡ worker.old.number }
    ensures bench { worker.new.bench ≡ worker.old.bench }
    ensures desk { worker.new.desk ≡ worker.old.desk }
    ensures ends { worker.new.ends ≡ worker.old.ends }
    ensures tasks { worker.new.tasks ≡ worker.old.tasks }
{
    worker.good = good;
    let number = worker.number;
    give_up_all(&mut worker.entries[good..], number, failed);
}
