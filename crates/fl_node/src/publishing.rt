// What its maker has of a batch that is published, or given up.
ghost use Rattle.std.specs.Prelude.{◌≡◌, length};
ghost use Rattle.fl_system.specs.Publishes.{given_to, released};

use fl_desks::benches::Benches;
use fl_system::state::Batch;

/// The maker of a batch, if there is one, goes on with what it gives. Takes no memory.
pub fn give(benches: &mut Benches, batch: &Batch)
    ensures procs { benches.new.procs ≡ benches.old.procs }
    ensures benches { benches.new.benches ≡ given_to batch.now benches.old.benches }
    ensures count { length benches.new.benches ≡ length benches.old.benches }
{
    if let Batch::Ordered(op, Some(pid), _) = batch {
        benches.finish(*pid, op);
    }
}

/// The maker of a batch, if there is one, goes on with nothing. Takes no memory.
pub fn release(benches: &mut Benches, batch: &Batch)
    ensures procs { benches.new.procs ≡ benches.old.procs }
    ensures benches { benches.new.benches ≡ released batch.now benches.old.benches }
    ensures count { length benches.new.benches ≡ length benches.old.benches }
{
    if let Batch::Ordered(_, Some(pid), _) = batch {
        benches.cancel(*pid);
    }
}
