//! An operation that an earlier batch left due is finished at the bench of its maker.
ghost use Rattle.std.specs.Prelude.{◌≡◌, ◌==◌, ℕ, cond, length};
ghost use Rattle.fl_bench.specs.Gifts.{finished};
ghost use Rattle.fl_crew_model.specs.Crews.{IsWorker, benches_with};
ghost use Rattle.fl_settling.specs.Each.{Each};
ghost use Rattle.fl_settling.specs.Numbers.{bench_by};
ghost use Rattle.fl_manning.specs.Changes.{IsButBench};

use fl_labels::pid::Pid;
use fl_ops::op::Op;
use fl_system::state::Batch;
use fl_worker::worker::Worker;

// Finishes the operation at the bench of the worker of this number, if there is one.
fn finish_at(workers: &mut [Worker], number: u8, pid: Pid, op: &Op)
    ensures bench { (w : ℕ) → IsWorker (length workers.old) w → bench_by workers.new w
        ≡ cond (number == w) (finished (bench_by workers.old number) pid op.now)
        (bench_by workers.old w) }
    ensures same { Each IsButBench workers.old workers.new }
{
    if number == 0 || number as usize > workers.len() {
        return;
    }
    workers[number as usize - 1].bench.finish(pid, op);
}

/// Finishes the operation of a batch that was due and is published now, at the bench of the worker
/// whose process ordered it: that process has what it gives. Does nothing where no process of a
/// worker ordered it. Takes no memory.
pub fn finish_maker(workers: &mut [Worker], batch: &Batch)
    ensures bench { (w : ℕ) → IsWorker (length workers.old) w →
        bench_by workers.new w ≡ benches_with (bench_by workers.old) batch.now w }
    ensures same { Each IsButBench workers.old workers.new }
{
    let Batch::Ordered(op, Some(pid), Some(number)) = batch else {
        return;
    };
    finish_at(workers, *number, *pid, op);
}
