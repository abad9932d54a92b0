//! The desks of the workers learn all that is published.
ghost use Rattle.std.specs.Prelude.{◌≡◌, ◌↔◌, All, IsTrue};
ghost use Rattle.fl_settling.specs.Each.{Each};
ghost use Rattle.fl_manning.specs.Changes.{IsCaughtUp};

use fl_replica::press::Press;
use fl_worker::worker::Worker;

// The desk of the worker learns all that is published. Whether that is just what it knows then.
fn catch_up(worker: &mut Worker, press: &Press) -> bool
    requires { worker.old.desk.board ≡ press.now.board }
    ensures caught_up { IsCaughtUp press.now.list worker.old worker.new }
    ensures all { IsTrue result ↔ (worker.new.desk.list ≡ press.now.list) }
{
    worker.desk.learn(press.tell());
    worker.desk.seen() == press.list().len() as u64
}

/// The desk of each worker learns all that is published. Returns whether that is just what each of
/// them knows then: not where a desk knew more. It goes on to the last worker.
///
/// Two numbers are compared for each worker. Takes no memory.
pub fn catch_up_all(workers: &mut [Worker], press: &Press) -> bool
    requires { All (λ w. w.desk.board ≡ press.now.board) workers.old }
    ensures caught_up { Each (IsCaughtUp press.now.list) workers.old workers.new }
    ensures all { IsTrue result ↔ All (λ w. w.desk.list ≡ press.now.list) workers.new }
{
    let mut all = true;
    for worker in workers.iter_mut() {
        all &= catch_up(worker, press);
    }
    all
}
