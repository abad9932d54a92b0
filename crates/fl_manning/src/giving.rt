//! The workers of a crew are given their tasks.
ghost use Rattle.std.specs.Prelude.{◌≡◌, ◌<◌, ℕ, All, OnOk, length, slice_index_or};
ghost use Rattle.fl_settling.specs.Each.{Each};
ghost use Rattle.fl_worker.specs.Done.{IsReady};
ghost use Rattle.fl_worker.specs.declared.worker.Worker.{Worker as WorkerValue};
ghost use Rattle.fl_dealing.specs.declared.dealing.Queue.{Queue as QueueValue};
ghost use Rattle.fl_manning.specs.Changes.{IsStill};

use fl_dealing::dealing::Queue;
use fl_worker::worker::Worker;
use std::alloc::{AllocError, Global};

/// Gives each worker the tasks of the queue at its place, and room for their entries, in place of
/// what it had. Fails only where there is not enough memory for that: some of the workers have
/// their tasks then, and the others none or what they had.
///
/// Takes time in proportion to the number of the workers and of what they had, and memory for as
/// many entries as there are tasks, where they had no room for them.
pub fn give_out(alloc: Global, workers: &mut [Worker], queues: Vec<Queue>) -> Result<(), AllocError>
    requires { length queues.items ≡ length workers.old }
    ensures ready { OnOk result (All IsReady workers.new) }
    ensures tasks { OnOk result ((k : ℕ) (worker : WorkerValue) (queue : QueueValue) →
        k < length workers.old → (slice_index_or workers.new k worker).tasks.items
        ≡ (slice_index_or queues.items k queue).tasks.items) }
    ensures still { Each IsStill workers.old workers.new }
{
    let mut index = 0;
    for queue in queues {
        workers[index].prepare(alloc, queue.tasks)?;
        index += 1;
    }
    Ok(())
}
