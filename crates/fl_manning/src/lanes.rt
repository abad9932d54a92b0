//! The entries of the workers are taken from them.
ghost use Rattle.std.specs.Prelude.{◌≡◌, ◌≤◌, ◌<◌, ℕ, [], length, slice_index_or, vec_capacity};
ghost use Rattle.fl_settling.specs.Each.{Each};
ghost use Rattle.fl_worker.specs.declared.worker.Worker.{Worker as WorkerValue};
ghost use Rattle.fl_dealing.specs.declared.gathering.Lane.{Lane as LaneValue};
ghost use Rattle.fl_manning.specs.Changes.{IsEmptied};

use core::mem::replace;
use fl_dealing::gathering::Lane;
use fl_worker::worker::Worker;
use std::alloc::Global;

/// Takes the entries of each worker: the lane at its place has them, and the worker has none. The
/// lanes stand in `room`, which is empty and has room for all of them. Takes time in proportion to
/// the number of the workers, and no memory.
pub fn lanes_of(alloc: Global, workers: &mut [Worker], room: Vec<Lane>) -> Vec<Lane>
    requires empty { room.items ≡ [] }
    requires room { length workers.old ≤ vec_capacity room }
    ensures count { length result.items ≡ length workers.old }
    ensures entries { (k : ℕ) (worker : WorkerValue) (lane : LaneValue) → k < length workers.old →
        (slice_index_or result.items k lane).entries.items
        ≡ (slice_index_or workers.old k worker).entries.items }
    ensures emptied { Each IsEmptied workers.old workers.new }
{
    let mut lanes = room;
    for worker in workers.iter_mut() {
        let entries = replace(&mut worker.entries, Vec::new(alloc));
        worker.good = 0;
        lanes.push_reserved(Lane { entries });
    }
    lanes
}
